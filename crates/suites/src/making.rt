// Making a key pair by the codes of its profile.
ghost use Rattle.std.specs.Prelude.{◌≡◌, OnErr};
ghost use Rattle.suites.specs.Suites.{Answered, Makes};

use crate::failure::Failure;
use crate::work::{Work, pick};
use algebra::Field;
use expander::Expander;
use keys::{KeyRequest, KeySizes, Workspace};
use lock::{Codes, Lock};
use refusal::Refusal;
use std::alloc::Global;

// A key pair is made for what is asked for.
impl Work for KeyRequest<'_> {
    type Answer = KeySizes;

    ghost says = { λ o sampled l block codes asked was now r. Makes sampled block o l codes asked was now r };

    fn run<F: Field, L: Lock<F>, E: Expander>(
        &self,
        memory: &mut Workspace<F>,
        out: &mut [u8],
    ) -> Result<KeySizes, Refusal> {
        memory.make::<L, E>(self, out)
    }
}

// Makes a key pair with the field, lock and expander that the codes name. A failure leaves the output as it was.
pub fn make_key(
    heap: Global,
    codes: Codes,
    request: &KeyRequest,
    out: &mut [u8],
) -> Result<KeySizes, Failure>
    ensures answers { Answered codes (λ F o sampled l block. Makes sampled block o l codes request.now out.old out.new) result }
    ensures same { OnErr result (out.new ≡ out.old) }
{
    pick(heap, codes, request, out)
}
