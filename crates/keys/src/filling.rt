// What a key is made of, worked out in working memory.
ghost use Rattle.std.specs.Prelude.{◌≡◌, ◌-◌, ◌*◌, ◌≤◌, true, [], None, map, length, take};
ghost use Rattle.lock.specs.Instances.{listed, product};
ghost use Rattle.lock.specs.Profiles.{ranged};
ghost use Rattle.refusal.specs.Rows.{Tells, row};
ghost use Rattle.keys.specs.Making.{Filled, target_of};

use crate::workspace::Workspace;
use algebra::Field;
use expander::{Expander, sample_list};
use lock::word::add_columns;
use lock::{Lock, Shape, Sound};
use records::elements::read_elements;
use refusal::Refusal;

// y = H x: the elements of x that are not free, and H' times those that are. No lock is known here, so that clauses speak of the
// shape alone.
fn fill_target<F: Field>(shape: Shape, matrix: &[F], x: &[F], target: &mut [F])
    requires ranged { ranged shape ≡ true }
    requires cells { length matrix.now ≡ shape.k * (shape.m - shape.k) }
    requires word { length x.now ≡ shape.m }
    requires room { length target.old ≡ shape.m - shape.k }
    ensures { target.new ≡ listed (product F.Field.ops (record { shape = shape; matrix = matrix.now; target = [] }) x.now) 0 (shape.m - shape.k) }
{
    let (free, bound) = x.split_at(shape.k as usize);
    target.copy_from_slice(bound);
    add_columns(matrix, free, target);
}

// A proof loses a `Vec` of which a part is lent, so that what follows takes the whole of a memory and writes to its front.

// The elements of a word, at the front of lent memory.
fn read_word<F: Field>(x: &[u8], word: &mut [F])
    requires { length x.now ≤ length word.old }
    ensures { take (length x.now) word.new ≡ map F.Field.ops.element x.now }
{
    read_elements(x, &mut word[..x.len()]);
}

// The secret of a word, at the front of lent memory.
fn find_secret<F: Field, L: Lock<F>>(
    sound: &Sound<F, L>,
    word: &[F],
    unknowns: &mut [F],
) -> Result<(), Refusal>
    requires word { length word.now ≡ sound.now.shape.m }
    requires room { L.Lock.forms.unknowns sound.now.shape ≤ length unknowns.old }
    ensures { Tells (row (L.Lock.forms.wanted sound.now.shape word.now) Refusal.NoSolution None) (λ _. take (L.Lock.forms.unknowns sound.now.shape) unknowns.new ≡ L.Lock.forms.secret sound.now.shape word.now) result }
{
    let n = L::unknowns(sound.shape);
    L::secret(sound, word, &mut unknowns[..n])
}

// The target of a word under the matrix of a seed, at the front of lent memory.
fn find_target<F: Field, E: Expander>(
    shape: Shape,
    seed: &[u8; 16],
    word: &[F],
    matrix: &mut [F],
    target: &mut [F],
)
    requires ranged { ranged shape ≡ true }
    requires word { length word.now ≡ shape.m }
    requires cells { shape.k * (shape.m - shape.k) ≤ length matrix.old }
    requires room { shape.m - shape.k ≤ length target.old }
    ensures { take (shape.m - shape.k) target.new ≡ target_of F.Field.sampled E.Expander.block F.Field.ops shape seed.now word.now }
{
    let k = shape.k as usize;
    let rows = shape.m as usize - k;
    let matrix = &mut matrix[..k * rows];
    sample_list::<F, E>(&[0; 16], seed, matrix);
    fill_target(shape, matrix, word, &mut target[..rows]);
}

impl<F: Field> Workspace<F> {
    // Works out the target and the secret of a word.
    pub(crate) fn fill<L: Lock<F>, E: Expander>(
        &mut self,
        sound: &Sound<F, L>,
        seed: &[u8; 16],
        x: &[u8],
    ) -> Result<(), Refusal>
        requires { length x.now ≡ sound.now.shape.m }
        ensures { Tells (row (L.Lock.forms.wanted sound.now.shape (map F.Field.ops.element x.now)) Refusal.NoSolution None) (λ _. Filled F.Field.sampled E.Expander.block F.Field.ops L.Lock.forms sound.now.shape seed.now (map F.Field.ops.element x.now) self.new.target.items self.new.unknowns.items) result }
    {
        read_word(x, self.word.as_mut_slice());
        let word = &self.word.as_slice()[..x.len()];
        find_secret(sound, word, self.unknowns.as_mut_slice())?;
        let matrix = self.matrix.as_mut_slice();
        find_target::<F, E>(sound.shape, seed, word, matrix, self.target.as_mut_slice());
        Ok(())
    }
}
