// Runs test cases whose answers come from other implementations, and says how many agree. Each line of the input is a case:
//   aes128 KEY BLOCK ANSWER
//   shake256 MESSAGE TAKEN GIVEN ANSWER     the message in pieces of TAKEN bytes, the answer in pieces of GIVEN; - is no bytes
// or an operation to be repeated and measured:
//   repeat block N, repeat key N, repeat sponge N
#![tactic(auto)]

mod cases;
mod repeats;

use cases::Done;
use std::io::{BufRead, BufReader};

fn main(rt: HostRuntime) -> anyhow::Result<()> {
    let mut ciphers = 0u64;
    let mut hashes = 0u64;
    let lines = BufReader::new(rt.alloc(), rt.stdin())?.lines(rt.alloc());
    for (i, line) in lines.enumerate() {
        let line = line?;
        match cases::run(rt.alloc(), line.as_str()) {
            Ok(Done::Cipher) => ciphers = ciphers.saturating_add(1),
            Ok(Done::Hash) => hashes = hashes.saturating_add(1),
            Ok(Done::Repeated(result)) => println!(rt;
                "{line}: the last result begins with {result:02x}"
            )?,
            Err(failure) => {
                println!(rt; "line {}: {}: {line}", i + 1, failure.of_line())?;
                return Err(failure.into());
            }
        }
    }
    println!(rt; "AES-128: {ciphers} cases agree\nSHAKE256: {hashes} cases agree")?;
    Ok(())
}
