// The tagged hashes of strings at hand: H, of 32 bytes, and S, an endless stream.
ghost use Rattle.std.specs.Prelude.{◌≡◌};
ghost use Rattle.std.specs.List.{flat_map};
ghost use Rattle.hashes.specs.Hashes.{hash_of, Streaming, Hashing};

use crate::hasher::Hasher;
use sponge::Sponge;

// A hasher that has taken the parts.
fn fed(tag: u8, parts: &[&[u8]]) -> Hasher
    ensures { Hashing result tag (flat_map (λ x. x.now) parts.now) }
{
    let mut hasher = Hasher::new(tag);
    for part in parts {
        hasher.update(part);
    }
    hasher
}

// H(tag, parts): 32 bytes.
pub fn hash(tag: u8, parts: &[&[u8]]) -> [u8; 32]
    ensures { result ≡ hash_of tag (flat_map (λ x. x.now) parts.now) }
{
    fed(tag, parts).finish()
}

// S(tag, parts): a sponge at the beginning of its output.
pub fn stream(tag: u8, parts: &[&[u8]]) -> Sponge
    ensures { Streaming result tag (flat_map (λ x. x.now) parts.now) 0 }
{
    fed(tag, parts).into_stream()
}
