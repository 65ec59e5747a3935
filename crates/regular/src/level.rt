// What the equations are worked out from: a level with its word for their values, and two of them for their cross terms.
ghost use Rattle.std.specs.Prelude.{◌≡◌, ◌+◌, ◌<◌, ◌≤◌, min, [], ◌∷◌, ◌++◌, length};
ghost use Rattle.std.proofs.Common.{arith};
ghost use Rattle.regular.specs.Regular.{whole, second, worth, crossed};

use crate::walk::{Block, View};
use algebra::Field;
use algebra::sums::total;

#[derive(Drop)]
pub struct Level<'a, F> {
    pub level: F,
    pub word: &'a [F],
    ghost short: { length word.now ≤ 250 },
}

#[derive(Drop)]
pub struct Crossing<'a, 'b, F> {
    pub one: Level<'a, F>,
    pub zero: Level<'b, F>,
}

impl<'a, F: Field> Level<'a, F> {
    // From a word with its level after it.
    pub fn of(parts: &'a [F]) -> Level<'a, F>
        requires some { 0 < length parts.now }
        requires short { length parts.now ≤ 251 }
        ensures value { parts.now ≡ result.word.now ++ (result.level ∷ []) }
        ensures len { length result.word.now + 1 ≡ length parts.now }
    {
        let (level, word) = parts.split_last().unwrap();
        Level {
            level: *level,
            word,
        }
    }

    // What the sum of a block is above the level.
    fn excess(&self, block: Block) -> F
        requires { block.start + block.size ≤ length self.now.word.now }
        ensures { result ≡ second F.Field.ops self.now.level self.now.word.now (whole block.start block.size) }
    {
        let sum = total(&self.word[block.start..block.start + block.size]);
        sum.add(self.level.negate())
    }
}

impl<'a, F: Field> View<F> for Level<'a, F> {
    ghost places = { λ v. length v.word.now };

    ghost value = { λ v e. worth F.Field.ops v.level v.word.now e };

    ghost short = { λ v. v.short };

    fn of_block(&self, block: Block) -> F {
        self.level.multiply(self.excess(block))
    }

    fn of_pair(&self, i: usize, j: usize) -> F {
        self.word[i].multiply(self.word[j])
    }
}

impl<'a, 'b, F: Field> View<F> for Crossing<'a, 'b, F> {
    ghost places = { λ v. min (length v.one.word.now) (length v.zero.word.now) };

    ghost value = { λ v e. crossed F.Field.ops v.one.level v.one.word.now v.zero.level v.zero.word.now e };

    ghost short = { λ v. Prim.omega (arith, v.one.short) };

    fn of_block(&self, block: Block) -> F {
        let down = self.one.level.multiply(self.zero.excess(block));
        let up = self.zero.level.multiply(self.one.excess(block));
        down.add(up)
    }

    fn of_pair(&self, i: usize, j: usize) -> F {
        let one = self.one.word;
        let zero = self.zero.word;
        one[i].multiply(zero[j]).add(zero[i].multiply(one[j]))
    }
}
