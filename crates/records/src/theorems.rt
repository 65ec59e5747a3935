// Reading inverts writing, and writing inverts reading. Each function does nothing; its contract is a theorem.
ghost use Rattle.records.specs.Trips.{PublicTrip, SecretTrip};

use algebra::Field;
use lock::Lock;

pub fn public_round_trip<F: Field, L: Lock<F>>()
    ensures { PublicTrip F.Field.ops L.Lock.forms }
{}

pub fn secret_round_trip<F: Field>()
    ensures { SecretTrip F.Field.ops }
{}
