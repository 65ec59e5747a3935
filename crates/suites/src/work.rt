// Work over a field, a lock and an expander that codes name.
ghost use Rattle.std.specs.Prelude.{◌≡◌, ℕ, List, Result, OnErr};
ghost use Rattle.algebra.specs.Fields.{Ops};
ghost use Rattle.lock.specs.Locks.{Forms};
ghost use Rattle.lock.specs.declared.profile.Codes.{Codes};
ghost use Rattle.refusal.specs.declared.Refusal.{Refusal};
ghost use Rattle.keys.specs.Making.{coded};
ghost use Rattle.suites.specs.Kinds.{lock_code, expander_code};
ghost use Rattle.suites.specs.Suites.{Answered, OverLock, OverExpander, But};

use crate::failure::Failure;
use crate::kinds::{ExpanderKind, FieldKind, LockKind};
use algebra::{Field, Gf256, Mod251};
use expander::{AesExpander, Expander, ShakeExpander};
use keys::Workspace;
use lock::{Codes, Lock};
use refusal::Refusal;
use regular::Regular;
use std::alloc::Global;
use weight::Weight;

// What can be done over any field, lock and expander, in working memory that is lent. What it writes goes to `out`.
pub(crate) trait Work {
    type Answer;

    // What is answered over a field, a lock and an expander with these codes, where `out` is the first list before and the second after.
    ghost says: { {F : Type 0} → Ops F → (List ℕ → F × ℕ) → Forms F → (List ℕ → List ℕ → ℕ → List ℕ) → Codes → Self → List ℕ → List ℕ → Result Self.Answer Refusal → Type 0 };

    fn run<F: Field, L: Lock<F>, E: Expander>(
        &self,
        memory: &mut Workspace<F>,
        out: &mut [u8],
    ) -> Result<Self::Answer, Refusal>
        ensures answers { says F.Field.ops F.Field.sampled L.Lock.forms E.Expander.block (coded F.Field.named L.Lock.named E.Expander.named) self.now out.old out.new result }
        ensures same { OnErr result (out.new ≡ out.old) };
}

// Only this can fail for want of memory.
fn run_in_new_memory<F: Field, L: Lock<F>, E: Expander, W: Work>(
    heap: Global,
    work: &W,
    out: &mut [u8],
) -> Result<W::Answer, Failure>
    ensures answers { But (W.says F.Field.ops F.Field.sampled L.Lock.forms E.Expander.block (coded F.Field.named L.Lock.named E.Expander.named) work.now out.old out.new) result }
    ensures same { OnErr result (out.new ≡ out.old) }
{
    let mut memory = Workspace::new(heap)?;
    Ok(work.run::<F, L, E>(&mut memory, out)?)
}

// One function for each kind, so that another field, lock or expander is one more arm here. Each passes on what it was lent: a struct
// for that would be taken apart at each step.
fn over_lock<F: Field, L: Lock<F>, W: Work>(
    heap: Global,
    expander: ExpanderKind,
    work: &W,
    out: &mut [u8],
) -> Result<W::Answer, Failure>
    ensures answers { let e = expander_code expander in
        OverExpander e (λ block. But (W.says F.Field.ops F.Field.sampled L.Lock.forms block (coded F.Field.named L.Lock.named e) work.now out.old out.new) result) }
    ensures same { OnErr result (out.new ≡ out.old) }
{
    match expander {
        ExpanderKind::Aes => run_in_new_memory::<F, L, AesExpander, W>(heap, work, out),
        ExpanderKind::Shake => run_in_new_memory::<F, L, ShakeExpander, W>(heap, work, out),
    }
}

fn over_field<F: Field, W: Work>(
    heap: Global,
    lock: LockKind,
    expander: ExpanderKind,
    work: &W,
    out: &mut [u8],
) -> Result<W::Answer, Failure>
    ensures answers { let c = coded F.Field.named (lock_code lock) (expander_code expander) in
        OverLock F.Field.ops c.lock (λ l. OverExpander c.expander (λ block. But (W.says F.Field.ops F.Field.sampled l block c work.now out.old out.new) result)) }
    ensures same { OnErr result (out.new ≡ out.old) }
{
    match lock {
        LockKind::Weight => over_lock::<F, Weight, W>(heap, expander, work, out),
        LockKind::Regular => over_lock::<F, Regular, W>(heap, expander, work, out),
    }
}

// Does the work with the field, lock and expander that the codes name.
pub(crate) fn pick<W: Work>(
    heap: Global,
    codes: Codes,
    work: &W,
    out: &mut [u8],
) -> Result<W::Answer, Failure>
    ensures answers { Answered codes (λ F o sampled l block. W.says o sampled l block codes work.now out.old out.new) result }
    ensures same { OnErr result (out.new ≡ out.old) }
{
    let field = codes.field.try_into()?;
    let lock = codes.lock.try_into()?;
    let expander = codes.expander.try_into()?;
    match field {
        FieldKind::Gf256 => over_field::<Gf256, W>(heap, lock, expander, work, out),
        FieldKind::Mod251 => over_field::<Mod251, W>(heap, lock, expander, work, out),
    }
}
