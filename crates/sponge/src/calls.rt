// What a sponge does: it absorbs, is padded and turned once, and is squeezed.
ghost use Rattle.std.specs.Prelude.{◌≡◌, ℕ, ◌+◌, ◌%◌, ◌≤◌, List, [], ◌∷◌, length};
ghost use Rattle.sponge.specs.Shake.{shake};
ghost use Rattle.sponge.specs.Sponges.{Absorbed, Turned, Takes, Gives, AbsorbCall};
ghost use Rattle.sponge.specs.Steps.{Advanced};

use crate::state::{KeccakState, Mode, Sponge};
use keccak::permute;
use refusal::Refusal;

// How many bytes a block has.
const RATE: usize = 136;

impl Sponge {
    // A sponge that has absorbed nothing.
    pub fn new() -> Sponge
        ensures { Absorbed result [] }
    {
        Sponge {
            state: KeccakState { lanes: [0; 25] },
            mode: Mode::Absorbing,
            pos: 0,
        }
    }

    // Goes n bytes on in the block, with a permutation where that is its end.
    fn advance(&mut self, n: usize)
        requires { self.old.pos + n ≤ 136 }
        ensures { Advanced self.old n self.new }
    {
        if self.pos + n == RATE {
            permute(&mut self.state.lanes);
            self.pos = 0;
        } else {
            self.pos += n;
        }
    }

    // Takes a byte.
    fn put_byte(&mut self, byte: u8)
        ensures { Takes self.old (byte ∷ []) self.new }
    {
        self.state.mix(self.pos, byte);
        self.advance(1);
    }

    // Takes eight bytes, at the beginning of a lane: they are xored whole, where a byte goes to its place in one.
    fn put_lane(&mut self, bytes: &[u8; 8])
        requires { self.old.pos % 8 ≡ 0 }
        ensures { Takes self.old bytes.now self.new }
    {
        self.state.mix_lane(self.pos / 8, bytes);
        self.advance(8);
    }

    // Takes the bytes, whatever the mode: by lanes where it stands at the beginning of one.
    fn feed(&mut self, bytes: &[u8])
        ensures { Takes self.old bytes.now self.new }
    {
        let mut rest = bytes;
        while let Some((byte, others)) = rest.split_first() {
            match rest.split_first_chunk::<8>() {
                Some((lane, after)) if self.pos % 8 == 0 => {
                    self.put_lane(lane);
                    rest = after;
                }
                _ => {
                    self.put_byte(*byte);
                    rest = others;
                }
            }
        }
    }

    // Gives a byte.
    fn get_byte(&mut self) -> u8
        ensures { Gives self.old 1 (result ∷ []) self.new }
    {
        let byte = self.state.byte(self.pos);
        self.advance(1);
        byte
    }

    // Gives eight bytes, at the beginning of a lane.
    fn get_lane(&mut self) -> [u8; 8]
        requires { self.old.pos % 8 ≡ 0 }
        ensures { Gives self.old 8 result self.new }
    {
        let lane = self.state.lane(self.pos / 8);
        self.advance(8);
        lane
    }

    // Gives the next bytes, once it has turned: by lanes where it stands at the beginning of one.
    fn draw(&mut self, out: &mut [u8])
        ensures { Gives self.old (length out.old) out.new self.new }
    {
        // The place is counted, since of a loop that moves a `&mut [u8]` on a proof learns no byte that was written.
        let mut given = 0;
        while given < out.len() {
            let rest = &mut out[given..];
            match rest.first_chunk_mut::<8>() {
                Some(lane) if self.pos % 8 == 0 => {
                    *lane = self.get_lane();
                    given += 8;
                }
                _ => {
                    rest[0] = self.get_byte();
                    given += 1;
                }
            }
        }
    }

    // Ends the absorbing: the two bytes of the padding, and one permutation.
    fn turn(&mut self)
        ensures { (m : List ℕ) → Absorbed self.old m → Turned self.new m 0 }
    {
        self.state.mix(self.pos, 0x1f);
        self.state.mix(RATE - 1, 0x80);
        permute(&mut self.state.lanes);
        self.pos = 0;
        self.mode = Mode::Squeezing;
    }

    // Takes the bytes as the next of the message.
    pub fn absorb(&mut self, bytes: &[u8]) -> Result<(), Refusal>
        ensures { AbsorbCall bytes.now self.old self.new result }
    {
        match self.mode {
            Mode::Absorbing => {
                self.feed(bytes);
                Ok(())
            }
            Mode::Squeezing => Err(Refusal::SpongeTurned),
        }
    }

    // Fills `out` with the next bytes of the output. A squeeze is never refused.
    pub fn squeeze(&mut self, out: &mut [u8])
        ensures first { (m : List ℕ) → Absorbed self.old m → (out.new ≡ shake m 0 (length out.old)) × Turned self.new m (length out.old) }
        ensures later { Gives self.old (length out.old) out.new self.new }
    {
        if let Mode::Absorbing = self.mode {
            self.turn();
        }
        self.draw(out);
    }
}
