// The numbers of a lock, once they are known to be right.
ghost use Rattle.std.specs.Prelude.{◌≡◌, true};
ghost use Rattle.lock.specs.Locks.{sound};

use crate::lock::Lock;
use crate::profile::Shape;
use algebra::Field;
use std::marker::PhantomData;

// The numbers of the lock L: in their ranges, with at most 256 unknowns, and as the lock wants them.
#[derive(Drop)]
pub struct Sound<F: Field, L: Lock<F>> {
    pub shape: Shape,
    of: PhantomData<(F, L)>,
    pub ghost sound: { sound L.Lock.forms shape ≡ true },
}

impl<F: Field, L: Lock<F>> Sound<F, L> {
    pub fn new(shape: Shape) -> Self
        requires { sound L.Lock.forms shape ≡ true }
        ensures { result.shape ≡ shape }
    {
        Sound {
            shape,
            of: PhantomData,
        }
    }
}
