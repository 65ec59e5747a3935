// The codes of the field, the lock and the expander in use.
ghost use Rattle.std.specs.Prelude.{◌≡◌};
ghost use Rattle.keys.specs.Making.{coded, SmallCodes};

use algebra::Field;
use expander::Expander;
use lock::{Codes, Lock};

pub fn codes_in_use<F: Field, L: Lock<F>, E: Expander>() -> Codes
    ensures small { SmallCodes result }
    ensures value { result ≡ coded F.Field.named L.Lock.named E.Expander.named }
{
    Codes {
        field: F::code(),
        lock: L::code(),
        expander: E::code(),
    }
}
