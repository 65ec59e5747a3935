// The digest of a message, which a seal binds: H(01, message).
use crate::failure::Failure;
use hashes::Hasher;
use std::env::Args;
use std::fs::File;
use std::io;
use std::io::Read;

// The first byte of what is hashed for a message, so that no other hash of the seal can be mistaken for it.
pub const MESSAGE_TAG: u8 = 0x01;

const PIECE: usize = 65536;

const GIB: u64 = 1 << 30;

// Reads to the end, piece by piece, so that the memory does not grow with the message.
fn of_reader<R: Read>(rt: &HostRuntime, reader: &mut R, piece: &mut [u8]) -> io::Result<[u8; 32]> {
    let mut hasher = Hasher::new(MESSAGE_TAG);
    let mut total = 0u64;
    // A loop has to end, so it counts, further than any file goes.
    for _ in 0..u64::MAX {
        let n = reader.read(piece)?;
        if n == 0 {
            break;
        }
        hasher.update(&piece[..n]);
        let before = total;
        total = total.saturating_add(n as u64);
        tell_progress(rt, before, total);
    }
    Ok(hasher.finish())
}

// A line on standard error for every gibibyte. Whether it can be written does not matter.
fn tell_progress(rt: &HostRuntime, before: u64, total: u64) {
    let done = total / GIB;
    if done > before / GIB {
        let _ = eprintln!(rt; "sealer: {done} GiB read");
    }
}

fn of_file(rt: &HostRuntime, name: &str) -> io::Result<[u8; 32]> {
    let mut piece = [0u8; PIECE];
    if name == "-" {
        of_reader(rt, &mut rt.stdin(), &mut piece)
    } else {
        of_reader(rt, &mut File::open(rt, name)?, &mut piece)
    }
}

// Prints the digest and the name of each file, or says on standard error why it cannot be read. One that cannot does not keep the
// others from being done.
pub fn print(rt: &HostRuntime, names: Args) -> Result<(), Failure> {
    if names.len() == 0 {
        return Err(Failure::NoName);
    }
    let mut outcome = Ok(());
    for name in names {
        match of_file(rt, name.as_str()) {
            Ok(digest) => {
                let text = hexadecimal::encode(rt.alloc(), &digest)?;
                println!(rt; "{text}  {name}")?;
            }
            Err(e) => {
                eprintln!(rt; "sealer: cannot read {name}: {e}")?;
                outcome = Err(Failure::Unread);
            }
        }
    }
    outcome
}
