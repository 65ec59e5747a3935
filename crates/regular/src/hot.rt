// Whether each block of a word has exactly one [1] and otherwise [0].
ghost use Rattle.std.specs.Prelude.{◌≡◌, ◌*◌, ◌≤◌, length};
ghost use Rattle.regular.specs.Regular.{counted, hot as hot_of, all_hot};

use algebra::Field;

// How many elements have a number.
fn count<F: Field>(elements: &[F], number: u16) -> usize
    ensures value { result ≡ counted F.Field.ops number elements.now }
    ensures most { result ≤ length elements.now }
{
    elements
        .iter()
        .filter(|element| element.number() == number)
        .count()
}

// Whether a block is so.
fn hot<F: Field>(block: &[F]) -> bool
    ensures { result ≡ hot_of F.Field.ops block.now }
{
    count(block, 1) == 1 && count(block, 0) == block.len() - 1
}

// Whether so many blocks from the front are so.
pub fn all_hot<F: Field>(x: &[F], size: usize, blocks: usize) -> bool
    requires { blocks * size ≤ length x.now }
    ensures { result ≡ all_hot F.Field.ops size blocks x.now }
{
    // Of blocks with no places none has a [1].
    if size == 0 {
        return blocks == 0;
    }
    x.chunks_exact(size).take(blocks).all(hot)
}
