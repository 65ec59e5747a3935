// The secret record: the unknowns.
ghost use Rattle.std.specs.Prelude.{◌≡◌, ◌+◌, ◌<◌, ◌≤◌, length};
ghost use Rattle.refusal.specs.Rows.{Tells};
ghost use Rattle.records.specs.Secrets.{secret_rows, secret_value, secret_bytes};
ghost use Rattle.records.specs.Writers.{Wrote};

use crate::elements::{all_elements, read_elements};
use crate::opening::after_version;
use crate::writer::Writer;
use algebra::Field;
use refusal::Refusal;

// Reads a secret record of as many unknowns as `u` has places.
pub fn read_secret<F: Field>(bytes: &[u8], u: &mut [F]) -> Result<(), Refusal>
    ensures { Tells (secret_rows F.Field.ops (length u.old) bytes.now) (λ _. u.new ≡ secret_value F.Field.ops bytes.now) result }
{
    let body = after_version(bytes, 0)?;
    if body.len() != u.len() {
        return Err(Refusal::BodyLength);
    }
    if !all_elements::<F>(body) {
        return Err(Refusal::Element);
    }
    read_elements(body, u);
    Ok(())
}

impl Writer<'_> {
    // Writes a secret record.
    pub fn put_secret<F: Field>(&mut self, u: &[F])
        requires few { length u.now < 65536 }
        requires room { self.old.at + (5 + length u.now) ≤ length self.old.out.now }
        ensures place { self.new.at ≡ self.old.at + (5 + length u.now) }
        ensures after { Wrote self.old (secret_bytes F.Field.ops u.now) self.new }
    {
        self.put_opening(u.len());
        self.put_elements(u);
    }
}
