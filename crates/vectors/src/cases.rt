// One case.
use crate::repeats;
use cipher::Aes128;
use sponge::Sponge;
use std::alloc::Global;
use std::error::Error;
use std::fmt;
use std::num::ParseIntError;
use std::str::Split;

// More bytes than this are not asked for at once: such a case differs.
const LONGEST_PIECE: usize = 512;

// What a case did that agrees.
#[derive(Clone, Copy, Debug, PartialEq, Eq)]
pub enum Done {
    Cipher,
    Hash,
    // An operation was repeated, and its last result begins with this byte.
    Repeated(u8),
}

// Why a line is not done. A case for which there is not enough memory counts as unreadable.
#[derive(Clone, Copy, Debug, PartialEq, Eq)]
pub enum Failure {
    Differs,
    Unreadable,
}

impl Failure {
    // What is said of the line.
    pub fn of_line(self) -> &'static str {
        match self {
            Failure::Differs => "the answer differs",
            Failure::Unreadable => "no case",
        }
    }
}

impl fmt::Display for Failure {
    fn fmt<W: fmt::Write>(&self, f: &mut fmt::Formatter<W>) -> fmt::Result {
        f.write_str(match self {
            Failure::Differs => "a case differs",
            Failure::Unreadable => "a line is no case",
        })
    }
}

impl Error for Failure {}

impl From<hexadecimal::Unreadable> for Failure {
    fn from(_e: hexadecimal::Unreadable) -> Failure {
        Failure::Unreadable
    }
}

impl From<ParseIntError> for Failure {
    fn from(_e: ParseIntError) -> Failure {
        Failure::Unreadable
    }
}

pub fn run(heap: Global, line: &str) -> Result<Done, Failure> {
    let mut words = Words {
        heap,
        rest: line.split(' '),
    };
    // An enum of the kinds of cases, read from the word, would only list them a second time.
    match words.word()? {
        "aes128" => encipher(&mut words),
        "shake256" => hash(&mut words),
        "repeat" => repeat(&mut words),
        _ => Err(Failure::Unreadable),
    }
}

// The words of a case that are not read yet, each to be read as what it stands for.
#[derive(Drop)]
struct Words<'a> {
    heap: Global,
    rest: Split<'a, char>,
}

impl<'a> Words<'a> {
    fn word(&mut self) -> Result<&'a str, Failure> {
        self.rest.next().ok_or(Failure::Unreadable)
    }

    fn bytes(&mut self) -> Result<Vec<u8>, Failure> {
        match self.word()? {
            "-" => Ok(Vec::new(self.heap)),
            text => Ok(hexadecimal::decode(self.heap, text.as_bytes())?),
        }
    }

    fn block(&mut self) -> Result<[u8; 16], Failure> {
        let bytes = self.bytes()?;
        bytes.as_slice().try_into().or(Err(Failure::Unreadable))
    }

    fn size(&mut self) -> Result<usize, Failure> {
        Ok(self.word()?.parse()?)
    }
}

fn encipher(words: &mut Words) -> Result<Done, Failure> {
    let key = words.block()?;
    let plain = words.block()?;
    let answer = words.bytes()?;
    let out = Aes128::new(&key).encrypt(&plain);
    if out.as_slice() == answer.as_slice() {
        Ok(Done::Cipher)
    } else {
        Err(Failure::Differs)
    }
}

fn hash(words: &mut Words) -> Result<Done, Failure> {
    let message = words.bytes()?;
    let taken = words.size()?;
    let given = words.size()?;
    let answer = words.bytes()?;
    if taken == 0 || given == 0 {
        return Err(Failure::Differs);
    }
    let mut sponge = Sponge::new();
    for piece in message.chunks(taken) {
        sponge.absorb(piece).or(Err(Failure::Differs))?;
    }
    let mut room = [0u8; LONGEST_PIECE];
    for piece in answer.chunks(given) {
        let out = room.get_mut(..piece.len()).ok_or(Failure::Differs)?;
        sponge.squeeze(out);
        if &*out != piece {
            return Err(Failure::Differs);
        }
    }
    Ok(Done::Hash)
}

fn repeat(words: &mut Words) -> Result<Done, Failure> {
    let what = words.word()?;
    let count = words.size()?;
    // A table of these functions by name would be no plainer.
    let last = match what {
        "block" => repeats::blocks(count),
        "key" => repeats::keys(count),
        "sponge" => repeats::hashed(count),
        _ => return Err(Failure::Unreadable),
    };
    Ok(Done::Repeated(last))
}
