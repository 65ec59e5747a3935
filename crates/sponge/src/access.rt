// The state's bytes: byte p is byte p % 8, the lowest first, of lane p / 8.
ghost use Rattle.std.specs.Prelude.{◌≡◌, ℕ, ◌+◌, ◌*◌, ◌<◌, slice_index};
ghost use Rattle.sponge.specs.Shake.{with_byte, byte_at, mixed};

use crate::state::KeccakState;

impl KeccakState {
    // Xors a byte into byte `at`.
    pub(crate) fn mix(&mut self, at: usize, byte: u8)
        requires { at < 200 }
        ensures { self.new.lanes ≡ with_byte self.old.lanes at byte }
    {
        self.lanes[at / 8] ^= (byte as u64) << (8 * (at % 8));
    }

    // Xors eight bytes into those of lane `at`.
    pub(crate) fn mix_lane(&mut self, at: usize, bytes: &[u8; 8])
        requires { at < 25 }
        ensures { self.new.lanes ≡ mixed (8 * at) bytes.now self.old.lanes }
    {
        self.lanes[at] ^= u64::from_le_bytes(*bytes);
    }

    // Byte `at`.
    pub(crate) fn byte(&self, at: usize) -> u8
        requires { at < 200 }
        ensures { result ≡ byte_at self.now.lanes at }
    {
        self.lane(at / 8)[at % 8]
    }

    // The eight bytes of lane `at`.
    pub(crate) fn lane(&self, at: usize) -> [u8; 8]
        requires { at < 25 }
        ensures { (j : ℕ) → j < 8 → slice_index result j ≡ byte_at self.now.lanes (8 * at + j) }
    {
        self.lanes[at].to_le_bytes()
    }
}
