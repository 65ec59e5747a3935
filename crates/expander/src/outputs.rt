// The output of a sponge as a stream.
ghost use Rattle.expander.specs.Sources.{AtByte};

use crate::stream::Stream;
use sponge::Sponge;

impl Stream for Sponge {
    ghost gives = { AtByte };

    fn next_block(&mut self) -> [u8; 16] {
        let mut block = [0; 16];
        self.squeeze(&mut block);
        block
    }
}
