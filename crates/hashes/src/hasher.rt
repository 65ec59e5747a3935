// A tagged hash that is fed in pieces. Asking for the result consumes it, so that no call of it is ever refused.
ghost use Rattle.std.specs.Prelude.{◌≡◌, ℕ, List, [], ◌++◌};
ghost use Rattle.hashes.specs.Hashes.{hash_of, Streaming, Hashing};

use sponge::Sponge;

#[derive(Drop)]
pub struct Hasher {
    sponge: Sponge,
}

// Each clause says of every tag and message that the hasher may have taken what holds then; what holds differs, so that one word for
// their common beginning would read no plainer.
impl Hasher {
    // H(tag, ..), with nothing taken yet. Any byte may be a tag: what holds of one holds of all, and their uses belong to the layers above.
    pub fn new(tag: u8) -> Hasher
        ensures { Hashing result tag [] }
    {
        let mut sponge = Sponge::new();
        let _ = sponge.absorb(&[tag]);
        Hasher { sponge }
    }

    // Takes the bytes as the next of the message.
    pub fn update(&mut self, bytes: &[u8])
        ensures { (tag : ℕ) (m : List ℕ) → Hashing self.old tag m → Hashing self.new tag (m ++ bytes.now) }
    {
        // The sponge of a hasher has not turned, and refuses nothing.
        let _ = self.sponge.absorb(bytes);
    }

    // The hash of all that was taken.
    pub fn finish(self) -> [u8; 32]
        ensures { (tag : ℕ) (m : List ℕ) → Hashing self tag m → result ≡ hash_of tag m }
    {
        let Hasher { mut sponge } = self;
        let mut out = [0; 32];
        sponge.squeeze(&mut out);
        out
    }

    // The endless output after all that was taken, from its beginning.
    pub fn into_stream(self) -> Sponge
        ensures { (tag : ℕ) (m : List ℕ) → Hashing self tag m → Streaming result tag m 0 }
    {
        let Hasher { mut sponge } = self;
        sponge.squeeze(&mut []);
        sponge
    }
}
