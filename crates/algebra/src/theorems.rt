// What holds over every field, from its laws alone. Each function does nothing; its contract is a theorem, and later proofs cite it.
ghost use Rattle.algebra.specs.Examples.{ProductExample, SamplingExample};
ghost use Rattle.algebra.specs.Fields.{ZeroProduct};
ghost use Rattle.algebra.specs.Rings.{RingEquations};
ghost use Rattle.algebra.specs.Theorems.{SumsLinear, FewRoots, FewSolutions};

use crate::field::Field;

// Expressions with one normal form are equal, whatever their variables stand for.
pub fn ring_equations<F: Field>()
    ensures { RingEquations F.Field.ops }
{}

// A product is zero only if a factor is.
pub fn zero_product<F: Field>()
    ensures { ZeroProduct F.Field.ops }
{}

// Sums, sums of products and values of polynomials are linear.
pub fn sums_linear<F: Field>()
    ensures { SumsLinear F.Field.ops }
{}

// A polynomial with more different roots than its degree is zero.
pub fn few_roots<F: Field>()
    ensures { FewRoots F.Field.ops }
{}

// Of all lists of elements, at most one in `size` meets a linear condition with a coefficient other than zero.
pub fn few_solutions<F: Field>()
    ensures { FewSolutions F.Field.ops }
{}

// The worked examples of the two fields.
pub fn field_examples()
    ensures product { ProductExample }
    ensures sampling { SamplingExample }
{}
