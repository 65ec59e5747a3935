// What turns a salt and a seed into blocks of bytes.
ghost use Rattle.std.specs.Prelude.{◌≡◌, ℕ, List, length};

// An expander that is keyed with a salt and a seed.
pub trait Expander: Drop {
    // The number by which records name the expander. Whoever writes an expander may pick one, so it is of no enum of ours.
    ghost named: { ℕ };

    // What a salt, a seed and a number are expanded to.
    ghost block: { List ℕ → List ℕ → ℕ → List ℕ };

    // What it is keyed with.
    ghost salt_of: { Self → List ℕ };

    ghost seed_of: { Self → List ℕ };

    fn code() -> u8
        ensures { result ≡ named };

    fn new(salt: &[u8; 16], seed: &[u8; 16]) -> Self
        ensures salt { salt_of result ≡ salt.now }
        ensures seed { seed_of result ≡ seed.now };

    // Block number `number`.
    fn block(&self, number: u64) -> [u8; 16]
        ensures { result ≡ block (salt_of self.now) (seed_of self.now) number };

    ghost whole: { (salt seed : List ℕ) (n : ℕ) → length salt ≡ 16 → length seed ≡ 16 → length (block salt seed n) ≡ 16 };

    ghost salted: { (e : Self) → length (salt_of e) ≡ 16 };

    ghost seeded: { (e : Self) → length (seed_of e) ≡ 16 };
}
