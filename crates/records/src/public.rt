// The public record.
ghost use Rattle.std.specs.Prelude.{◌≡◌, ◌+◌, ◌-◌, ◌<◌, ◌≤◌, true, length};
ghost use Rattle.lock.specs.Locks.{within};
ghost use Rattle.refusal.specs.Rows.{Tells};
ghost use Rattle.records.specs.Publics.{profile_value, profile_bytes, profile_rows, public_rows, public_value, public_bytes, height, key_of, Holds};
ghost use Rattle.records.specs.Writers.{Wrote};

use crate::elements::{all_elements, read_elements};
use crate::head::PublicHead;
use crate::opening::after_version;
use crate::writer::Writer;
use algebra::Field;
use lock::{Codes, Lock, Profile, Shape};
use refusal::Refusal;

// The least that the length field of a public record can be: one element.
pub const LEAST: usize = 32;

// A profile from its bytes, and its bytes. They are no `From`, which the crate of the type would have to write: it knows no format.
fn read_profile(bytes: &[u8; 14]) -> Profile
    ensures { result ≡ profile_value bytes.now }
{
    let [
        field,
        lock,
        expander,
        m1,
        m0,
        k1,
        k0,
        w1,
        w0,
        a,
        b,
        rho,
        t1,
        t0,
    ] = *bytes;
    Profile {
        codes: Codes {
            field,
            lock,
            expander,
        },
        shape: Shape {
            m: u16::from_be_bytes([m1, m0]),
            k: u16::from_be_bytes([k1, k0]),
            w: u16::from_be_bytes([w1, w0]),
        },
        a,
        b,
        rho,
        t: u16::from_be_bytes([t1, t0]),
    }
}

fn profile_bytes(p: &Profile) -> [u8; 14]
    ensures { result ≡ profile_bytes p.now }
{
    let [m1, m0] = p.shape.m.to_be_bytes();
    let [k1, k0] = p.shape.k.to_be_bytes();
    let [w1, w0] = p.shape.w.to_be_bytes();
    let [t1, t0] = p.t.to_be_bytes();
    [
        p.codes.field,
        p.codes.lock,
        p.codes.expander,
        m1,
        m0,
        k1,
        k0,
        w1,
        w0,
        p.a,
        p.b,
        p.rho,
        t1,
        t0,
    ]
}

// How many elements y has.
pub fn height(profile: &Profile) -> usize
    requires { profile.now.shape.k ≤ profile.now.shape.m }
    ensures { result ≡ height profile.now }
{
    profile.shape.m as usize - profile.shape.k as usize
}

// The rows that look at a profile: its codes, its limits, and the number of bytes after the version.
fn check_profile<F: Field, L: Lock<F>>(
    profile: &Profile,
    codes: Codes,
    size: usize,
) -> Result<(), Refusal>
    ensures { Tells (profile_rows L.Lock.forms codes profile.now size) (λ _. (within L.Lock.forms profile.now ≡ true) × (size ≡ 30 + (profile.now.shape.m - profile.now.shape.k))) result }
{
    if profile.codes != codes {
        return Err(Refusal::Code);
    }
    if !profile.within::<F, L>() {
        return Err(Refusal::Profile);
    }
    if size != 30 + height(profile) {
        return Err(Refusal::BodyLength);
    }
    Ok(())
}

// Reads a public record; its elements go to the front of `y`.
pub fn read_public<F: Field, L: Lock<F>>(
    bytes: &[u8],
    codes: Codes,
    y: &mut [F],
) -> Result<PublicHead, Refusal>
    requires { 249 ≤ length y.old }
    ensures { Tells (public_rows F.Field.ops L.Lock.forms codes bytes.now) (λ h. Holds L.Lock.forms (public_value F.Field.ops bytes.now) h y.new) result }
{
    let body = after_version(bytes, LEAST)?;
    let (numbers, rest) = body.split_first_chunk().unwrap();
    let profile = read_profile(numbers);
    check_profile::<F, L>(&profile, codes, body.len())?;
    let (seed, elements) = rest.split_first_chunk().unwrap();
    if !all_elements::<F>(elements) {
        return Err(Refusal::Element);
    }
    read_elements(elements, &mut y[..elements.len()]);
    Ok(PublicHead {
        profile,
        matrix_seed: *seed,
    })
}

impl Writer<'_> {
    // Writes a public record.
    pub fn put_public<F: Field>(&mut self, head: &PublicHead, y: &[F])
        requires few { length y.now < 65536 }
        requires room { self.old.at + (35 + length y.now) ≤ length self.old.out.now }
        ensures place { self.new.at ≡ self.old.at + (35 + length y.now) }
        ensures after { Wrote self.old (public_bytes F.Field.ops (key_of head.now y.now)) self.new }
    {
        self.put_opening(30 + y.len());
        self.put_bytes(&profile_bytes(&head.profile));
        self.put_bytes(&head.matrix_seed);
        self.put_elements(y);
    }
}
