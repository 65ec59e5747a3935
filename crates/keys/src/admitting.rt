// What is refused before anything is worked out.
ghost use Rattle.std.specs.Prelude.{◌≡◌, ◌+◌, true, length};
ghost use Rattle.lock.specs.Locks.{within};
ghost use Rattle.refusal.specs.Rows.{Tells};
ghost use Rattle.keys.specs.Making.{key_sizes, admit_rows, Admitted};

use crate::request::KeyRequest;
use crate::sizes::KeySizes;
use algebra::Field;
use lock::{Codes, Lock, Profile};
use records::elements::all_elements;
use records::public::height;
use refusal::Refusal;

// The sizes of the two records of a profile.
fn sizes<F: Field, L: Lock<F>>(profile: &Profile) -> KeySizes
    requires { within L.Lock.forms profile.now ≡ true }
    ensures { result ≡ key_sizes L.Lock.forms profile.now }
{
    KeySizes {
        public: 35 + height(profile),
        secret: 5 + L::unknowns(profile.shape),
    }
}

// All rows but the last, which wants the word. Rows are tested in their order before anything is made, so that each is a test here, and
// the value that it is about is made later.
pub(crate) fn admit<F: Field, L: Lock<F>>(
    codes: Codes,
    request: &KeyRequest,
    room: usize,
) -> Result<KeySizes, Refusal>
    ensures { Tells (admit_rows F.Field.ops L.Lock.forms codes request.now.profile request.now.matrix_seed.now request.now.x.now room) (λ s. Admitted L.Lock.forms request.now.profile request.now.matrix_seed.now request.now.x.now room s) result }
{
    let profile = &request.profile;
    if profile.codes != codes {
        return Err(Refusal::Code);
    }
    if !profile.within::<F, L>() {
        return Err(Refusal::Profile);
    }
    if !all_elements::<F>(request.x) {
        return Err(Refusal::Element);
    }
    if request.matrix_seed.len() != 16 || request.x.len() != profile.shape.m as usize {
        return Err(Refusal::ArgumentLength);
    }
    let sizes = sizes::<F, L>(profile);
    if sizes.public + sizes.secret > room {
        return Err(Refusal::OutputShort);
    }
    Ok(sizes)
}
