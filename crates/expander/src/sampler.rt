// The type of what samples elements from a source.
ghost use Rattle.std.specs.Prelude.{◌≡◌, ◌≤◌, length};

// The bytes of `pair` from `at` up to place 16 are the next of the stream, and the source goes on after them. The second half has room
// for the block after them; until that is wanted it holds leftovers. A byte before `at` is used: no block is asked for too soon.
// The place stands beside the bytes, since a sampler's memory is fixed, and two blocks in a row give sixteen bytes without a copy.
#[derive(Drop)]
pub struct Sampler<S> {
    pub(crate) source: S,
    pub(crate) pair: [u8; 32],
    pub(crate) at: usize,
    ghost used: { 1 ≤ at },
    ghost place: { at ≤ 16 },
    ghost full: { length pair ≡ 32 },
}
