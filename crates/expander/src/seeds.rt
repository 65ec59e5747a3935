// The stream of a seed: its blocks one after the other.
ghost use Rattle.expander.specs.Sources.{AtBlock};
ghost use Rattle.expander.specs.Streams.{seed_stream};

use crate::expander::Expander;
use crate::stream::Stream;

#[derive(Drop)]
pub struct SeedStream<E> {
    expander: E,
    next: u64,
}

impl<E: Expander> SeedStream<E> {
    // The stream of a salt and a seed, from its beginning.
    pub fn new(salt: &[u8; 16], seed: &[u8; 16]) -> SeedStream<E>
        ensures { AtBlock E.Expander.block E.Expander.salt_of E.Expander.seed_of result (seed_stream E.Expander.block salt.now seed.now) 0 }
    {
        SeedStream {
            expander: E::new(salt, seed),
            next: 0,
        }
    }
}

impl<E: Expander> Stream for SeedStream<E> {
    ghost gives = { AtBlock E.Expander.block E.Expander.salt_of E.Expander.seed_of };

    fn next_block(&mut self) -> [u8; 16] {
        let block = self.expander.block(self.next);
        self.next = self.next.wrapping_add(1);
        block
    }
}
