// What code over any lock may use of it.
ghost use Rattle.std.specs.Prelude.{◌≡◌, ℕ, true, List, length};
ghost use Rattle.lock.specs.Instances.{Problem, given, listed};
ghost use Rattle.lock.specs.Locks.{Forms, Parts, OnLines, Opens, Makes, sound};
ghost use Rattle.refusal.specs.Rows.{Tells, row};

use crate::instance::Instance;
use crate::profile::Shape;
use crate::sound::Sound;
use algebra::Field;
use refusal::Refusal;

// What a secret must solve. A lock changes nothing but what it is lent to write to.
pub trait Lock<F: Field> {
    ghost forms: { Forms F };

    ghost working: { Parts F };

    // The number by which records name the lock. Whoever writes a lock may pick one, so it is of no enum of ours.
    ghost named: { ℕ };

    fn code() -> u8
        ensures { result ≡ named };

    // Whether the numbers are within the lock's own limits, beside those that every lock has.
    fn admits(shape: Shape) -> bool
        ensures { result ≡ forms.admits shape };

    fn unknowns(shape: Shape) -> usize
        ensures { result ≡ forms.unknowns shape };

    fn equations(sound: &Sound<F, Self>) -> usize
        ensures { result ≡ forms.equations sound.now.shape };

    // How many parts the equations are worked out from.
    fn part_count(sound: &Sound<F, Self>) -> usize
        ensures { result ≡ working.count sound.now.shape };

    // The parts at a level s and unknowns u, from which the equations are worked out. The two stay apart, as in E_j(s, u): a type for
    // both would serve this function and `fill_word` alone. The numbers stand in the problem, so that a clause says they are sound.
    fn parts(problem: &Instance<F>, s: F, u: &[F], out: &mut [F])
        requires sound { sound forms problem.now.shape ≡ true }
        requires unknowns { length u.now ≡ forms.unknowns problem.now.shape }
        requires room { length out.old ≡ working.count problem.now.shape }
        ensures { out.new ≡ working.all (given problem.now) s u.now };

    // The value of every equation, from the parts.
    fn values(sound: &Sound<F, Self>, parts: &[F], out: &mut [F])
        requires parts { length parts.now ≡ working.count sound.now.shape }
        requires room { length out.old ≡ forms.equations sound.now.shape }
        ensures { (p : Problem F) (s : F) (u : List F) → p.shape ≡ sound.now.shape → parts.now ≡ working.all p s u
            → out.new ≡ listed (λ j. forms.form p j s u) 0 (forms.equations sound.now.shape) };

    // The cross term of every equation, from the parts of u at level one and of v at level zero.
    fn crosses(sound: &Sound<F, Self>, ones: &[F], zeros: &[F], out: &mut [F])
        requires ones { length ones.now ≡ working.count sound.now.shape }
        requires zeros { length zeros.now ≡ working.count sound.now.shape }
        requires room { length out.old ≡ forms.equations sound.now.shape }
        ensures { (p : Problem F) (u v : List F) → p.shape ≡ sound.now.shape → ones.now ≡ working.all p F.Field.ops.one u
            → zeros.now ≡ working.all p F.Field.ops.zero v
            → out.new ≡ listed (λ j. forms.cross p j u v) 0 (forms.equations sound.now.shape) };

    // Writes the unknowns that a word x stands for as a secret. A word that is not as the lock wants it has none.
    fn secret(sound: &Sound<F, Self>, x: &[F], u: &mut [F]) -> Result<(), Refusal>
        requires word { length x.now ≡ sound.now.shape.m }
        requires room { length u.old ≡ forms.unknowns sound.now.shape }
        ensures { Tells (row (forms.wanted sound.now.shape x.now) Refusal.NoSolution None) (λ _. u.new ≡ forms.secret sound.now.shape x.now) result };

    ghost lines: { OnLines F.Field.ops forms };

    ghost opens: { Opens F.Field.ops forms };

    ghost makes: { Makes F.Field.ops forms };
}
