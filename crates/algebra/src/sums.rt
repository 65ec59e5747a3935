// Sums over any field.
ghost use Rattle.std.specs.Prelude.{◌≡◌, length, replicate};
ghost use Rattle.algebra.specs.Sums.{total as total_of, dot_of, eval_of, combined};

use crate::field::Field;

// The sum of the elements.
pub fn total<F: Field>(elements: &[F]) -> F
    ensures { result ≡ total_of F.Field.ops elements.now }
{
    elements.iter().fold(F::zero(), |sum, x| sum.add(*x))
}

// The sum of the products of the elements at one place, up to the end of the shorter list.
pub fn dot<F: Field>(a: &[F], b: &[F]) -> F
    ensures { result ≡ dot_of F.Field.ops a.now b.now }
{
    // Cut to one length, so that the compiler tests for one end in each turn and not for two.
    let shorter = a.len().min(b.len());
    a[..shorter]
        .iter()
        .zip(&b[..shorter])
        .fold(F::zero(), |sum, (x, y)| sum.add(x.multiply(*y)))
}

// The value of a polynomial, its constant coefficient first, by Horner's rule.
pub fn evaluate<F: Field>(coefficients: &[F], at: F) -> F
    ensures { result ≡ eval_of F.Field.ops coefficients.now at }
{
    coefficients
        .iter()
        .rev()
        .fold(F::zero(), |value, c| c.add(at.multiply(value)))
}

// Adds a factor times each element to the sum at its place.
pub fn add_scaled<F: Field>(sums: &mut [F], factor: F, elements: &[F])
    requires { length elements.now ≡ length sums.old }
    ensures { sums.new ≡ combined F.Field.ops factor elements.now sums.old }
{
    // By index, since of what is written through a `zip` a proof knows nothing.
    for (i, sum) in sums.iter_mut().enumerate() {
        *sum = factor.multiply(elements[i]).add(*sum);
    }
}

// Sets each element to zero.
pub fn clear<F: Field>(elements: &mut [F])
    ensures { elements.new ≡ replicate (length elements.old) F.Field.ops.zero }
{
    // `fill` asks that clones cannot fail, which an element of any field does not promise.
    for x in elements.iter_mut() {
        *x = F::zero();
    }
}
