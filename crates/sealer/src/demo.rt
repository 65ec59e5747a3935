// A tour of what there is. It prints what was done, so that a newcomer sees each part work.
use crate::digest::MESSAGE_TAG;
use crate::failure::Failure;
use algebra::{Field, Gf256, Mod251};
use cipher::Aes128;
use hashes::Hasher;
use sponge::Sponge;

const MESSAGE: &[u8] = b"Plan 17, sheet 3: the boundary runs from stone A to stone B.";

// Two bytes that stand for no number below 251, and one that does.
const SAMPLED: [u8; 16] = [251, 255, 7, 0, 0, 0, 0, 0, 0, 0, 0, 0, 0, 0, 0, 0];

// The example of FIPS 197, appendix C.1.
const KEY: [u8; 16] = [0, 1, 2, 3, 4, 5, 6, 7, 8, 9, 10, 11, 12, 13, 14, 15];

const BLOCK: [u8; 16] = [
    0, 17, 34, 51, 68, 85, 102, 119, 136, 153, 170, 187, 204, 221, 238, 255,
];

pub fn run(rt: &HostRuntime) -> Result<(), Failure> {
    fields(rt)?;
    encipher(rt)?;
    hash(rt)?;
    refuse(rt)
}

fn fields(rt: &HostRuntime) -> Result<(), Failure> {
    let a = Gf256::element(0x57);
    let b = Gf256::element(0x83);
    let product = a.multiply(b).number();
    let back = a.multiply(b).multiply(b.invert()).number();
    let c = Mod251::element(200);
    let d = Mod251::element(100);
    let sum = c.add(d).number();
    let times = c.multiply(d).number();
    let (element, used) = Mod251::sample(&SAMPLED);
    let number = element.number();
    println!(rt;
        "Fields
  of 256 elements: 57 times 83 is {product:x}, and that divided by 83 is {back:x}
  modulo 251: 200 plus 100 is {sum}, and 200 times 100 is {times}
  modulo 251: the bytes 251, 255, 7 are sampled to {number}, with {used} of them used"
    )?;
    Ok(())
}

fn encipher(rt: &HostRuntime) -> Result<(), Failure> {
    let out = Aes128::new(&KEY).encrypt(&BLOCK);
    let key = hexadecimal::encode(rt.alloc(), &KEY)?;
    let block = hexadecimal::encode(rt.alloc(), &BLOCK)?;
    let result = hexadecimal::encode(rt.alloc(), &out)?;
    println!(rt;
        "Cipher
  AES-128 under the key {key}
  takes the block {block}
  to {result}"
    )?;
    Ok(())
}

fn hash(rt: &HostRuntime) -> Result<(), Failure> {
    let whole = hashes::hash(MESSAGE_TAG, &[MESSAGE]);
    let mut hasher = Hasher::new(MESSAGE_TAG);
    let (front, back) = MESSAGE.split_at(10);
    hasher.update(front);
    hasher.update(back);
    let agree = hasher.finish() == whole;
    let digest = hexadecimal::encode(rt.alloc(), &whole)?;
    println!(rt;
        "Sponge
  the message of {} bytes has the digest
  {digest}
  taken in two pieces, it has the same digest: {agree}",
        MESSAGE.len()
    )?;
    Ok(())
}

fn refuse(rt: &HostRuntime) -> Result<(), Failure> {
    let mut sponge = Sponge::new();
    let mut out = [0u8; 8];
    sponge.squeeze(&mut out);
    match sponge.absorb(MESSAGE) {
        Ok(()) => rt.println("Refusals\n  a sponge that had turned took more bytes")?,
        Err(refusal) => {
            let number = refusal.number();
            println!(rt;
                "Refusals\n  a sponge that had turned refused more bytes with {number}: {refusal}"
            )?
        }
    }
    Ok(())
}
