// Working memory: how it is made, and how the secrets are wiped from it.
ghost use Rattle.std.specs.Prelude.{◌≡◌, IfOk, replicate};
ghost use Rattle.keys.specs.Making.{Clean};

use crate::workspace::Workspace;
use algebra::Field;
use algebra::sums::clear;
use std::alloc::{AllocError, Global};

// By `resize`, which copies: of the clones that `vec!` makes a proof over any field knows nothing.
fn zeros<F: Field>(heap: Global, count: usize) -> Result<Vec<F>, AllocError>
    ensures { IfOk result (λ v. v.items ≡ replicate count F.Field.ops.zero) }
{
    let mut elements = Vec::new(heap);
    elements.resize(count, F::zero())?;
    Ok(elements)
}

impl<F: Field> Workspace<F> {
    // Only this can fail for want of memory.
    pub fn new(heap: Global) -> Result<Workspace<F>, AllocError>
        ensures { IfOk result (λ w. Clean F.Field.ops w) }
    {
        Ok(Workspace {
            matrix: zeros(heap, 15625)?,
            word: zeros(heap, 250)?,
            target: zeros(heap, 249)?,
            unknowns: zeros(heap, 256)?,
        })
    }

    // Sets to zero what a secret was worked out in.
    pub(crate) fn wipe(&mut self)
        ensures { Clean F.Field.ops self.new }
    {
        clear(self.word.as_mut_slice());
        clear(self.unknowns.as_mut_slice());
    }
}
