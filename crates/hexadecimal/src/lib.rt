// Bytes in hexadecimal, for people and for files of cases.
#![tactic(auto)]

ghost use Rattle.std.specs.Prelude.{◌≡◌, ℕ, ◌<◌, IfSome, IfOk, Some, None, string_bytes, MatchResult};
ghost use Rattle.hexadecimal.specs.Digits.{digit_of, encoded, value_of, byte_of, decoded};
ghost use Rattle.hexadecimal.specs.declared.Unreadable.TheVariants.{NoMemory};

use std::alloc::{AllocError, AllocFailed, Global};
use std::error::Error;
use std::fmt;

fn digit(n: u8) -> char
    requires { n < 16 }
    ensures { result ≡ digit_of n }
{
    char::from_digit(u32::from(n), 16).unwrap()
}

// What a digit stands for, in either case of its letter.
fn value(c: u8) -> Option<u8>
    ensures value { result ≡ value_of c }
    ensures bound { IfSome result (λ v. v < 16) }
{
    let v = char::from(c).to_digit(16)?;
    Some(v as u8)
}

// The byte that two digits stand for.
fn byte(high: u8, low: u8) -> Option<u8>
    ensures { result ≡ byte_of high low }
{
    Some(16 * value(high)? + value(low)?)
}

// Two lower-case digits for each byte.
pub fn encode(heap: Global, bytes: &[u8]) -> Result<String, AllocError>
    ensures { IfOk result (λ s. string_bytes s ≡ encoded bytes.now) }
{
    let mut text = String::new(heap);
    for b in bytes {
        text.push(digit(*b / 16))?;
        text.push(digit(*b % 16))?;
    }
    Ok(text)
}

// Why a text is not taken as hexadecimal.
#[derive(Clone, Copy, Debug, PartialEq, Eq)]
pub enum Unreadable {
    NotHex,
    NoMemory,
}

impl fmt::Display for Unreadable {
    fn fmt<W: fmt::Write>(&self, f: &mut fmt::Formatter<W>) -> fmt::Result {
        f.write_str(match self {
            Unreadable::NotHex => "the text is not hexadecimal",
            Unreadable::NoMemory => "there is not enough memory",
        })
    }
}

impl Error for Unreadable {}

impl<T: Drop> From<AllocFailed<T>> for Unreadable {
    ghost from_gives = { λ _ e. e ≡ NoMemory };

    fn from(_e: AllocFailed<T>) -> Unreadable {
        Unreadable::NoMemory
    }
}

// The bytes that a text of hexadecimal digits stands for.
pub fn decode(heap: Global, text: &[u8]) -> Result<Vec<u8>, Unreadable>
    ensures { MatchResult result (λ v. decoded text.now ≡ Some v.items) (λ e. (e ≡ Unreadable.NotHex → decoded text.now ≡ None)) }
{
    let (pairs, rest) = text.as_chunks::<2>();
    if !rest.is_empty() {
        return Err(Unreadable::NotHex);
    }
    let mut bytes = Vec::new(heap);
    for &[high, low] in pairs {
        bytes.push(byte(high, low).ok_or(Unreadable::NotHex)?)?;
    }
    Ok(bytes)
}
