// Why a call is refused, with the number that it returns.
#![tactic(auto)]

ghost use Rattle.std.specs.Prelude.{◌≡◌, MatchResult};
ghost use Rattle.refusal.specs.Numbers.{number_of, NoRefusal, NumbersDiffer};

use std::error::Error;
use std::fmt;

// In the order of their numbers, which is the order in which a call tries them.
#[derive(Clone, Copy, Debug, PartialEq, Eq)]
pub enum Refusal {
    RecordLength = 1,
    Version = 2,
    Code = 3,
    Profile = 4,
    BodyLength = 5,
    Element = 6,
    ArgumentLength = 7,
    SheetLength = 8,
    SheetContent = 9,
    TrayShort = 10,
    OutputShort = 11,
    NoSolution = 12,
    AlreadyDone = 13,
    NotYet = 14,
    DrawsExhausted = 15,
    Cover = 16,
    Challenge = 17,
    SpongeTurned = 18,
}

// A number that no refusal has.
#[derive(Clone, Copy, Debug, PartialEq, Eq)]
pub struct UnknownRefusal(pub u8);

impl Refusal {
    // The number that a refused call returns.
    pub fn number(self) -> u8
        ensures { result ≡ number_of self }
    {
        self as u8
    }
}

// The refusal that has a number. No derive makes this from the numbers above.
impl TryFrom<u8> for Refusal {
    type Error = UnknownRefusal;

    ghost try_from_gives = { λ n r. MatchResult r (λ e. number_of e ≡ n) (λ unknown. (unknown.0 ≡ n) × NoRefusal n) };

    fn try_from(n: u8) -> Result<Refusal, UnknownRefusal> {
        match n {
            1 => Ok(Refusal::RecordLength),
            2 => Ok(Refusal::Version),
            3 => Ok(Refusal::Code),
            4 => Ok(Refusal::Profile),
            5 => Ok(Refusal::BodyLength),
            6 => Ok(Refusal::Element),
            7 => Ok(Refusal::ArgumentLength),
            8 => Ok(Refusal::SheetLength),
            9 => Ok(Refusal::SheetContent),
            10 => Ok(Refusal::TrayShort),
            11 => Ok(Refusal::OutputShort),
            12 => Ok(Refusal::NoSolution),
            13 => Ok(Refusal::AlreadyDone),
            14 => Ok(Refusal::NotYet),
            15 => Ok(Refusal::DrawsExhausted),
            16 => Ok(Refusal::Cover),
            17 => Ok(Refusal::Challenge),
            18 => Ok(Refusal::SpongeTurned),
            _ => Err(UnknownRefusal(n)),
        }
    }
}

// No two refusals have one number. The function does nothing; its contract is the theorem.
pub fn numbers_differ()
    ensures { NumbersDiffer }
{}

// What is wrong, for a person.
impl fmt::Display for Refusal {
    fn fmt<W: fmt::Write>(&self, f: &mut fmt::Formatter<W>) -> fmt::Result {
        f.write_str(match self {
            Refusal::RecordLength => "the record is too short, or its length field is wrong",
            Refusal::Version => "the record has a version other than 1",
            Refusal::Code => "the key is for another field, lock or expander",
            Refusal::Profile => "a number of the profile is outside its limits",
            Refusal::BodyLength => "the record is not as long as its profile says",
            Refusal::Element => "a byte stands for no element of the field",
            Refusal::ArgumentLength => "a salt, a seed or x has the wrong length",
            Refusal::SheetLength => "the sheet has the wrong length",
            Refusal::SheetContent => "the sheet is of another key, or is damaged",
            Refusal::TrayShort => "the tray is too short",
            Refusal::OutputShort => "the output is too short",
            Refusal::NoSolution => "the secret does not solve the lock",
            Refusal::AlreadyDone => "all rounds are done, or a draw has found a fit",
            Refusal::NotYet => "rounds are missing, or no draw has found a fit",
            Refusal::DrawsExhausted => "all 65536 counters were drawn, and none fits",
            Refusal::Cover => "the seal opens too many seeds, or not those of its cover",
            Refusal::Challenge => "the seal does not hold for this key and message",
            Refusal::SpongeTurned => "the sponge takes no more bytes once it has given some",
        })
    }
}

impl fmt::Display for UnknownRefusal {
    fn fmt<W: fmt::Write>(&self, f: &mut fmt::Formatter<W>) -> fmt::Result {
        write!(f, "no refusal has the number {}", self.0)
    }
}

impl Error for Refusal {}

impl Error for UnknownRefusal {}
