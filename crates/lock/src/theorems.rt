// What holds of every word, over every field. Each function does nothing; its contract is a theorem.
ghost use Rattle.lock.specs.Theorems.{WordsSatisfy};

use algebra::Field;

// The word of any unknowns satisfies H x = y.
pub fn words_satisfy<F: Field>()
    ensures { WordsSatisfy F.Field.ops }
{}
