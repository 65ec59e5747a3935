// What holds of the regular lock, over every field. Each function does nothing; its contract is a theorem.
ghost use Rattle.regular.specs.Theorems.{RegularWord, PairsCounted, RegularExample};

use algebra::Field;

// Where unknowns solve the lock, their word x has H x = y, and exactly one [1] in each block and otherwise [0].
pub fn regular_word<F: Field>()
    ensures { RegularWord F.Field.ops }
{}

// A block of n places has n (n - 1) / 2 pairs.
pub fn pairs_counted()
    ensures { PairsCounted }
{}

// A block whose sum is one and that is none of those wanted.
pub fn regular_example()
    ensures { RegularExample }
{}
