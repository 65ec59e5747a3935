// All equations in order, block after block and in a block row after row, each worked out by itself.
ghost use Rattle.std.specs.Prelude.{◌≡◌, ℕ, suc, ◌+◌, ◌*◌, ◌<◌, ◌≤◌, map, length};
ghost use Rattle.regular.specs.Regular.{Equation, whole, pair, pairs_with, pairs, block as equations_of, blocks, triangle};

use algebra::Field;

// The places of a block. Whether it lies inside depends on the view too, so that clauses say it where both meet.
#[derive(Clone, Copy)]
pub struct Block {
    pub start: usize,
    pub size: usize,
}

// What equations are worked out from: something over the places of a word.
pub trait View<F: Field> {
    ghost places: { Self → ℕ };

    ghost value: { Self → Equation → F };

    fn of_block(&self, block: Block) -> F
        requires { block.start + block.size ≤ places self.now }
        ensures { result ≡ value self.now (whole block.start block.size) };

    fn of_pair(&self, i: usize, j: usize) -> F
        requires first { i < places self.now }
        requires second { j < places self.now }
        ensures { result ≡ value self.now (pair i j) };

    ghost short: { (v : Self) → places v ≤ 250 };
}

// The place i with each of those after it.
fn fill_row<F: Field, V: View<F>>(view: &V, i: usize, out: &mut [F])
    requires { suc i + length out.old ≤ V.View.places view.now }
    ensures { out.new ≡ map (V.View.value view.now) (pairs_with i (suc i) (length out.old)) }
{
    for (t, value) in out.iter_mut().enumerate() {
        *value = view.of_pair(i, i + 1 + t);
    }
}

// The pairs of the places of a block.
fn fill_pairs<F: Field, V: View<F>>(view: &V, block: Block, out: &mut [F])
    requires inside { block.start + block.size ≤ V.View.places view.now }
    requires room { length out.old ≡ triangle block.size }
    ensures { out.new ≡ map (V.View.value view.now) (pairs block.start block.size) }
{
    // Each row goes to the place that was reached: of parts that split_off_mut hands out, the proof knows nothing once they are written.
    let last = block.start + block.size;
    let mut at = 0;
    for i in block.start..last {
        let end = at + (last - i - 1);
        fill_row(view, i, &mut out[at..end]);
        at = end;
    }
}

// The sum and the pairs of the places of a block.
fn fill_block<F: Field, V: View<F>>(view: &V, block: Block, out: &mut [F])
    requires inside { block.start + block.size ≤ V.View.places view.now }
    requires room { length out.old ≡ 1 + triangle block.size }
    ensures { out.new ≡ map (V.View.value view.now) (equations_of block.start block.size) }
{
    let (sum, rest) = out.split_first_mut().unwrap();
    *sum = view.of_block(block);
    fill_pairs(view, block, rest);
}

// How many equations a block has: its sum, and a pair for each two of its places.
pub fn per_block(size: usize) -> usize
    requires low { 1 ≤ size }
    requires high { size ≤ 250 }
    ensures value { result ≡ 1 + triangle size }
    ensures few { result ≤ 31126 }
{
    1 + size * (size - 1) / 2
}

// The equations of all blocks.
pub fn fill_blocks<F: Field, V: View<F>>(view: &V, size: usize, count: usize, out: &mut [F])
    requires inside { count * size ≤ V.View.places view.now }
    requires low { 1 ≤ size }
    requires high { size ≤ 250 }
    requires room { length out.old ≡ count * (1 + triangle size) }
    ensures { out.new ≡ map (V.View.value view.now) (blocks size 0 count) }
{
    // Each block goes to its place: of parts that chunks_exact_mut hands out, the proof knows nothing once they are written.
    let per = per_block(size);
    for b in 0..count {
        let start = b * size;
        let at = b * per;
        fill_block(view, Block { start, size }, &mut out[at..at + per]);
    }
}
