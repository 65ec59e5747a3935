// What a sponge is.
ghost use Rattle.std.specs.Prelude.{◌<◌};

// The 25 lanes that Keccak-f[1600] permutes.
pub(crate) struct KeccakState {
    pub(crate) lanes: [u64; 25],
}

// One type has both modes, since a sponge that has turned refuses bytes with a number of the refusals.
#[derive(Clone, Copy)]
pub(crate) enum Mode {
    Absorbing,
    Squeezing,
}

// `pos` is the place in the block of 136 bytes that the next byte goes into, or comes from; the lanes are the only buffer.
pub struct Sponge {
    pub(crate) state: KeccakState,
    pub(crate) mode: Mode,
    pub(crate) pos: usize,
    ghost within: { pos < 136 },
}

// A sponge is let go with its lanes wiped.
impl Drop for Sponge {
    fn drop(mut self) {
        self.state.lanes.fill(0);
        let Sponge {
            state: KeccakState { lanes: _ },
            mode: _,
            pos: _,
        } = self;
    }
}
