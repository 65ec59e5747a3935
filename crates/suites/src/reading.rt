// Reading the records of a key by their codes.
ghost use Rattle.std.specs.Prelude.{◌≡◌};
ghost use Rattle.refusal.specs.Rows.{Tells};
ghost use Rattle.records.specs.Openings.{opening_rows};
ghost use Rattle.records.specs.Publics.{profile_of, public_rows, public_value};
ghost use Rattle.keys.specs.Pairs.{pair_rows};
ghost use Rattle.suites.specs.Suites.{Answered, IsHead};

use crate::failure::Failure;
use crate::work::{Work, pick};
use algebra::Field;
use expander::Expander;
use keys::Workspace;
use lock::{Codes, Lock};
use records::PublicHead;
use records::opening::after_version;
use records::public::LEAST;
use refusal::Refusal;
use std::alloc::Global;

// A public record that is to be read.
#[derive(Clone, Copy)]
struct ReadPublic<'a> {
    bytes: &'a [u8],
}

// A public and a secret record that are to be read.
#[derive(Clone, Copy)]
struct ReadPair<'a> {
    public: &'a [u8],
    secret: &'a [u8],
}

impl Work for ReadPublic<'_> {
    type Answer = PublicHead;

    ghost says = { λ o sampled l block codes w was now r. Tells (public_rows o l codes w.bytes.now) (IsHead l (public_value o w.bytes.now)) r };

    fn run<F: Field, L: Lock<F>, E: Expander>(
        &self,
        memory: &mut Workspace<F>,
        _out: &mut [u8],
    ) -> Result<PublicHead, Refusal> {
        memory.read_public::<L, E>(self.bytes)
    }
}

impl Work for ReadPair<'_> {
    type Answer = PublicHead;

    ghost says = { λ o sampled l block codes w was now r. Tells (pair_rows o l codes w.public.now w.secret.now) (IsHead l (public_value o w.public.now)) r };

    fn run<F: Field, L: Lock<F>, E: Expander>(
        &self,
        memory: &mut Workspace<F>,
        _out: &mut [u8],
    ) -> Result<PublicHead, Refusal> {
        memory.read_pair::<L, E>(self.public, self.secret)
    }
}

// Reads a public record with the field, lock and expander that the codes name.
pub fn read_public(heap: Global, codes: Codes, bytes: &[u8]) -> Result<PublicHead, Failure>
    ensures { Answered codes (λ F o sampled l block. Tells (public_rows o l codes bytes.now) (IsHead l (public_value o bytes.now))) result }
{
    pick(heap, codes, &ReadPublic { bytes }, &mut [])
}

// Reads a public record, and then a secret one.
pub fn read_pair(
    heap: Global,
    codes: Codes,
    public: &[u8],
    secret: &[u8],
) -> Result<PublicHead, Failure>
    ensures { Answered codes (λ F o sampled l block. Tells (pair_rows o l codes public.now secret.now) (IsHead l (public_value o public.now))) result }
{
    pick(heap, codes, &ReadPair { public, secret }, &mut [])
}

// The codes that a public record names. A profile is read with its codes in `records`, all fourteen bytes at once; here three are enough.
pub fn codes_of(bytes: &[u8]) -> Result<Codes, Refusal>
    ensures { Tells (opening_rows 32 bytes.now) (λ c. c ≡ (profile_of bytes.now).codes) result }
{
    let rest = after_version(bytes, LEAST)?;
    let ([field, lock, expander], _) = rest.split_first_chunk::<3>().unwrap();
    Ok(Codes {
        field: *field,
        lock: *lock,
        expander: *expander,
    })
}
