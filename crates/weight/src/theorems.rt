// What holds of the weight lock over every field. Each function does nothing; its contract is a theorem.
ghost use Rattle.weight.specs.Examples.{WeightExamples};
ghost use Rattle.weight.specs.Theorems.{WeightBound};

use algebra::Field;

// The word of unknowns that solve the lock satisfies H x = y and has at most w elements other than zero.
pub fn weight_bound<F: Field>()
    ensures { WeightBound F.Field.ops }
{}

// Unknowns that solve a lock of three places, and unknowns that do not.
pub fn weight_examples()
    ensures { WeightExamples }
{}
