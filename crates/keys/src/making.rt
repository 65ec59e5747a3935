// Making a key pair.
ghost use Rattle.std.specs.Prelude.{◌≡◌, ◌+◌, ◌<◌, ◌≤◌, ◌++◌, length, IfOk, OnErr};
ghost use Rattle.records.specs.Formats.{Puts};
ghost use Rattle.records.specs.Publics.{key_of, public_bytes};
ghost use Rattle.records.specs.Secrets.{secret_bytes};
ghost use Rattle.keys.specs.Making.{coded, Made, ReadsBack, Clean};

use crate::admitting::admit;
use crate::codes::codes_in_use;
use crate::request::KeyRequest;
use crate::sizes::KeySizes;
use crate::workspace::Workspace;
use algebra::Field;
use expander::Expander;
use lock::{Codes, Lock, Sound};
use records::public::height;
use records::{PublicHead, Writer};
use refusal::Refusal;

// Both records at the front of the output, from the target and the secret.
fn put_key<F: Field>(out: &mut [u8], head: &PublicHead, target: &[F], secret: &[F])
    requires rows { length target.now < 250 }
    requires many { length secret.now ≤ 256 }
    requires room { 35 + length target.now + (5 + length secret.now) ≤ length out.old }
    ensures { Puts out.old 0 (public_bytes F.Field.ops (key_of head.now target.now) ++ secret_bytes F.Field.ops secret.now) out.new }
{
    let mut writer = Writer::new(out);
    writer.put_public(head, target);
    writer.put_secret(secret);
}

impl<F: Field> Workspace<F> {
    // A key pair, with the secrets left in working memory.
    fn write_key<L: Lock<F>, E: Expander>(
        &mut self,
        codes: Codes,
        request: &KeyRequest,
        out: &mut [u8],
    ) -> Result<KeySizes, Refusal>
        ensures answers { Made F.Field.sampled E.Expander.block F.Field.ops L.Lock.forms codes request.now out.old out.new result }
        ensures same { OnErr result (out.new ≡ out.old) }
    {
        let sizes = admit::<F, L>(codes, request, out.len())?;
        let head = PublicHead {
            profile: request.profile,
            matrix_seed: request.matrix_seed.try_into().unwrap(),
        };
        let shape = head.profile.shape;
        self.fill::<L, E>(&Sound::new(shape), &head.matrix_seed, request.x)?;
        let rows = height(&head.profile);
        let n = L::unknowns(shape);
        put_key(
            out,
            &head,
            &self.target.as_slice()[..rows],
            &self.unknowns.as_slice()[..n],
        );
        Ok(sizes)
    }

    // Makes a key pair for what is asked for. Both records are written to the front of the output, the public one first; the answer tells
    // their sizes. A refusal leaves the output as it was.
    pub fn make<L: Lock<F>, E: Expander>(
        &mut self,
        request: &KeyRequest,
        out: &mut [u8],
    ) -> Result<KeySizes, Refusal>
        ensures answers { Made F.Field.sampled E.Expander.block F.Field.ops L.Lock.forms (coded F.Field.named L.Lock.named E.Expander.named) request.now out.old out.new result }
        ensures same { OnErr result (out.new ≡ out.old) }
        ensures reads { IfOk result (λ s. ReadsBack F.Field.sampled E.Expander.block F.Field.ops L.Lock.forms (coded F.Field.named L.Lock.named E.Expander.named) out.new s) }
        ensures clean { Clean F.Field.ops self.new }
    {
        let codes = codes_in_use::<F, L, E>();
        let result = self.write_key::<L, E>(codes, request, out);
        self.wipe();
        result
    }
}
