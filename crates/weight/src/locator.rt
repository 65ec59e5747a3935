// The polynomial Q at all places at once.
ghost use Rattle.std.specs.Prelude.{◌≡◌, ◌≤◌, [], ◌∷◌, ◌++◌, length};
ghost use Rattle.algebra.specs.Sums.{eval_of};
ghost use Rattle.lock.specs.Instances.{listed};
ghost use Rattle.weight.specs.Places.{risen};

use algebra::Field;

// Writes one element to every place.
fn set_all<F: Field>(out: &mut [F], element: F)
    ensures { out.new ≡ listed (λ _. element) 0 (length out.old) }
{
    for x in out.iter_mut() {
        *x = element;
    }
}

// One step of Horner's rule: the value at each place j becomes the coefficient plus [j] times itself. No place waits for another, so that
// the compiler works out many at once: a place after the other, each with all steps, takes six to eleven times as long.
fn horner_step<F: Field>(out: &mut [F], coefficient: F)
    requires { length out.old ≤ 250 }
    ensures { out.new ≡ risen F.Field.ops coefficient 0 out.old }
{
    for (j, value) in out.iter_mut().enumerate() {
        *value = coefficient.add(F::element(j as u16).multiply(*value));
    }
}

// The value at each place of the polynomial with these coefficients and the leading coefficient s.
pub(crate) fn fill_locators<F: Field>(s: F, coefficients: &[F], out: &mut [F])
    requires { length out.old ≤ 250 }
    ensures { out.new ≡ listed (λ j. eval_of F.Field.ops (coefficients.now ++ (s ∷ [])) (F.Field.ops.element j)) 0 (length out.old) }
{
    set_all(out, s);
    for t in (0..coefficients.len()).rev() {
        horner_step(out, coefficients[t]);
    }
}
