// Keys that another implementation made: each is made again from its profile, its seed and its word, and read back. And a record that is
// written after what stands already.
ghost use Rattle.std.specs.Prelude.{◌≡◌, ◌+◌, ◌<◌, ◌≤◌, length};
ghost use Rattle.algebra.specs.Binary.{binary};
ghost use Rattle.records.specs.Formats.{Puts};
ghost use Rattle.records.specs.Secrets.{secret_bytes};

use crate::{codes_of, make_key, read_pair, read_public};
use algebra::Gf256;
use keys::KeyRequest;
use lock::{Codes, Profile, Shape};
use records::Writer;
use std::test::Fail;

#[derive(Clone, Copy)]
struct Key<'a> {
    codes: Codes,
    matrix_seed: &'a [u8],
    x: &'a [u8],
    public: &'a [u8],
    secret: &'a [u8],
}

const WEIGHT_OVER_GF256: Key = Key {
    codes: Codes {
        field: 1,
        lock: 1,
        expander: 1,
    },
    matrix_seed: &[
        0xa3, 0x9a, 0x1f, 0x20, 0x88, 0x15, 0x2c, 0x60, 0xee, 0xb1, 0x94, 0xeb, 0xfa, 0x12, 0x28,
        0xa7,
    ],
    x: &[0x00, 0x00, 0xe1, 0x84, 0x2b, 0x00],
    public: &[
        0x00, 0x00, 0x00, 0x23, 0x01, 0x01, 0x01, 0x01, 0x00, 0x06, 0x00, 0x02, 0x00, 0x03, 0x03,
        0x01, 0x02, 0x00, 0x04, 0xa3, 0x9a, 0x1f, 0x20, 0x88, 0x15, 0x2c, 0x60, 0xee, 0xb1, 0x94,
        0xeb, 0xfa, 0x12, 0x28, 0xa7, 0xe1, 0x84, 0x2b, 0x00,
    ],
    secret: &[0x00, 0x00, 0x00, 0x06, 0x01, 0x00, 0x00, 0x18, 0x02, 0x05],
};

const REGULAR_MODULO_251: Key = Key {
    codes: Codes {
        field: 2,
        lock: 2,
        expander: 1,
    },
    matrix_seed: &[
        0xd3, 0xb1, 0xd8, 0x66, 0x2a, 0xb7, 0xd5, 0x86, 0x54, 0xe7, 0x06, 0xb6, 0xf7, 0xcf, 0x69,
        0x47,
    ],
    x: &[0x00, 0x01, 0x01, 0x00, 0x00, 0x01],
    public: &[
        0x00, 0x00, 0x00, 0x23, 0x01, 0x02, 0x02, 0x01, 0x00, 0x06, 0x00, 0x02, 0x00, 0x03, 0x03,
        0x01, 0x02, 0x00, 0x04, 0xd3, 0xb1, 0xd8, 0x66, 0x2a, 0xb7, 0xd5, 0x86, 0x54, 0xe7, 0x06,
        0xb6, 0xf7, 0xcf, 0x69, 0x47, 0xf0, 0xb7, 0xf3, 0xf0,
    ],
    secret: &[0x00, 0x00, 0x00, 0x03, 0x01, 0x00, 0x01],
};

#[test]
fn keys_are_made_and_read(rt: HostRuntime) -> Result<(), Fail> {
    for key in [WEIGHT_OVER_GF256, REGULAR_MODULO_251] {
        let request = KeyRequest {
            profile: Profile {
                codes: key.codes,
                shape: Shape { m: 6, k: 2, w: 3 },
                a: 3,
                b: 1,
                rho: 2,
                t: 4,
            },
            matrix_seed: key.matrix_seed,
            x: key.x,
        };
        let mut out = [0u8; 64];
        let sizes = make_key(rt.alloc(), key.codes, &request, &mut out)?;
        assert_eq!(rt; sizes.public, key.public.len());
        assert_eq!(rt; sizes.secret, key.secret.len());
        assert_eq!(rt; out.get(..39), Some(key.public));
        assert_eq!(rt; out.get(39..39 + key.secret.len()), Some(key.secret));
        let alone = read_public(rt.alloc(), key.codes, key.public)?;
        assert!(rt; alone.profile == request.profile);
        let pair = read_pair(rt.alloc(), key.codes, key.public, key.secret)?;
        assert!(rt; pair.profile == request.profile);
        assert!(rt; codes_of(key.public)? == key.codes);
    }
    Ok(())
}

// A secret record from a place on, and the place after it.
fn write_secret(out: &mut [u8], at: usize, u: &[Gf256]) -> usize
    requires few { length u.now < 65536 }
    requires room { at + (5 + length u.now) ≤ length out.old }
    ensures place { result ≡ at + (5 + length u.now) }
    ensures after { Puts out.old at (secret_bytes binary u.now) out.new }
{
    let mut writer = Writer { out, at };
    writer.put_secret(u);
    writer.at
}

#[test]
fn a_record_is_written_after_what_stands(rt: HostRuntime) -> Result<(), Fail> {
    let mut out = [7u8; 10];
    let end = write_secret(&mut out, 2, &[Gf256::from(24), Gf256::from(2)]);
    assert_eq!(rt; end, 9);
    assert!(rt; out == [7, 7, 0, 0, 0, 3, 1, 24, 2, 7]);
    Ok(())
}
