// The equations of the weight lock, and the secret of a word.
ghost use Rattle.std.specs.Prelude.{◌≡◌, ◌+◌, length, take, drop};
ghost use Rattle.weight.specs.Places.{products_of, crossings_of};
ghost use Rattle.weight.specs.Weight.{weight as weight_forms, parts as weight_parts};
ghost use Rattle.weight.specs.Weights.{weight_lines, weight_opens, weight_makes};
ghost use Rattle.algebra.proofs.Domains.{zero-product};

use crate::locator::fill_locators;
use crate::roots::{fill_roots, weight_of};
use algebra::Field;
use lock::word::fill_word;
use lock::{Instance, Lock, Shape, Sound};
use refusal::Refusal;

// The lock of the words that have at most w elements other than zero.
pub struct Weight;

impl<F: Field> Lock<F> for Weight {
    ghost forms = { weight_forms F.Field.ops };

    ghost working = { weight_parts F.Field.ops };

    ghost named = { 1 };

    ghost lines = { weight_lines F.Field.laws.ring };

    ghost opens = { let laws = F.Field.laws in weight_opens laws.ring (zero-product laws) laws.numbered };

    ghost makes = { let laws = F.Field.laws in weight_makes laws.ring laws.numbered };

    fn code() -> u8 {
        1
    }

    fn admits(shape: Shape) -> bool {
        true
    }

    fn unknowns(shape: Shape) -> usize {
        shape.k as usize + shape.w as usize
    }

    fn equations(sound: &Sound<F, Self>) -> usize {
        sound.shape.m as usize
    }

    fn part_count(sound: &Sound<F, Self>) -> usize {
        2 * sound.shape.m as usize
    }

    fn parts(problem: &Instance<F>, s: F, u: &[F], out: &mut [F]) {
        let k = problem.shape.k as usize;
        let (word, locators) = out.split_at_mut(problem.shape.m as usize);
        fill_word(problem, s, u, word);
        fill_locators(s, &u[k..], locators);
    }

    fn values(sound: &Sound<F, Self>, parts: &[F], out: &mut [F]) {
        products(&Halves::of(parts, sound.shape.m as usize), out);
    }

    fn crosses(sound: &Sound<F, Self>, ones: &[F], zeros: &[F], out: &mut [F]) {
        let m = sound.shape.m as usize;
        crossings(&Halves::of(ones, m), &Halves::of(zeros, m), out);
    }

    fn secret(sound: &Sound<F, Self>, x: &[F], u: &mut [F]) -> Result<(), Refusal> {
        if weight_of(x) != sound.shape.w as usize {
            return Err(Refusal::NoSolution);
        }
        let k = sound.shape.k as usize;
        let (free, coefficients) = u.split_at_mut(k);
        free.copy_from_slice(&x[..k]);
        fill_roots(x, coefficients);
        Ok(())
    }
}

// The parts: the word x, and the value of Q at each of its places.
#[derive(Drop)]
struct Halves<'a, F> {
    word: &'a [F],
    locators: &'a [F],
    ghost even: { length locators.now ≡ length word.now },
}

impl<'a, F> Halves<'a, F> {
    fn of(parts: &'a [F], places: usize) -> Halves<'a, F>
        requires { length parts.now ≡ places + places }
        ensures word { result.word.now ≡ take places parts.now }
        ensures locators { result.locators.now ≡ drop places parts.now }
    {
        let (word, locators) = parts.split_at(places);
        Halves { word, locators }
    }
}

// x_j q_j at each place j, by index, since of what is written through a `zip` a proof knows nothing.
fn products<F: Field>(parts: &Halves<F>, out: &mut [F])
    requires { length out.old ≡ length parts.now.word.now }
    ensures { out.new ≡ products_of F.Field.ops parts.now.word.now parts.now.locators.now (length out.old) }
{
    for (j, product) in out.iter_mut().enumerate() {
        *product = parts.word[j].multiply(parts.locators[j]);
    }
}

// x_j r_j + y_j q_j at each place j, from x with q and y with r, by index for the same reason.
fn crossings<F: Field>(one: &Halves<F>, zero: &Halves<F>, out: &mut [F])
    requires one { length out.old ≡ length one.now.word.now }
    requires zero { length out.old ≡ length zero.now.word.now }
    ensures { out.new ≡ crossings_of F.Field.ops one.now.word.now one.now.locators.now zero.now.word.now zero.now.locators.now (length out.old) }
{
    for (j, crossing) in out.iter_mut().enumerate() {
        let down = one.word[j].multiply(zero.locators[j]);
        let up = zero.word[j].multiply(one.locators[j]);
        *crossing = down.add(up);
    }
}
