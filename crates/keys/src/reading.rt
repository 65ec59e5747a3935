// Reading the records of a key into working memory.
ghost use Rattle.std.specs.Prelude.{◌≡◌, ◌≤◌, length, take};
ghost use Rattle.refusal.specs.Rows.{Tells};
ghost use Rattle.records.specs.Publics.{public_rows, public_value, Holds};
ghost use Rattle.records.specs.Secrets.{secret_rows, secret_value};
ghost use Rattle.keys.specs.Making.{coded};
ghost use Rattle.keys.specs.Pairs.{pair_rows, PairHeld};

use crate::codes::codes_in_use;
use crate::workspace::Workspace;
use algebra::Field;
use expander::Expander;
use lock::Lock;
use records::PublicHead;
use records::public::read_public;
use records::secret::read_secret;
use refusal::Refusal;

// Reads a secret record of n unknowns to the front of lent memory. It takes the whole, since a proof loses a `Vec` of which a part is lent.
fn read_front<F: Field>(bytes: &[u8], n: usize, unknowns: &mut [F]) -> Result<(), Refusal>
    requires { n ≤ length unknowns.old }
    ensures { Tells (secret_rows F.Field.ops n bytes.now) (λ _. take n unknowns.new ≡ secret_value F.Field.ops bytes.now) result }
{
    read_secret(bytes, &mut unknowns[..n])
}

impl<F: Field> Workspace<F> {
    // Reads a public record; its elements go to the front of the target.
    pub fn read_public<L: Lock<F>, E: Expander>(
        &mut self,
        bytes: &[u8],
    ) -> Result<PublicHead, Refusal>
        ensures { Tells (public_rows F.Field.ops L.Lock.forms (coded F.Field.named L.Lock.named E.Expander.named) bytes.now) (λ h. Holds L.Lock.forms (public_value F.Field.ops bytes.now) h self.new.target.items) result }
    {
        read_public::<F, L>(bytes, codes_in_use::<F, L, E>(), self.target.as_mut_slice())
    }

    // Reads a public and a secret record, the public one first.
    pub fn read_pair<L: Lock<F>, E: Expander>(
        &mut self,
        public: &[u8],
        secret: &[u8],
    ) -> Result<PublicHead, Refusal>
        ensures { Tells (pair_rows F.Field.ops L.Lock.forms (coded F.Field.named L.Lock.named E.Expander.named) public.now secret.now) (λ h. PairHeld F.Field.ops L.Lock.forms public.now secret.now h self.new.target.items self.new.unknowns.items) result }
    {
        let head = self.read_public::<L, E>(public)?;
        let n = L::unknowns(head.profile.shape);
        read_front(secret, n, self.unknowns.as_mut_slice())?;
        Ok(head)
    }
}
