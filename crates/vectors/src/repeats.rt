// One operation repeated, for bench/measure to count its instructions. Each answers the first byte of its last result, which tells that the
// work was done.
use cipher::Aes128;
use hashes::Hasher;

// Enciphers a block under a kept key, and then what came out.
pub fn blocks(count: usize) -> u8 {
    let cipher = Aes128::new(&[7; 16]);
    let mut block = [0u8; 16];
    for _ in 0..count {
        block = cipher.encrypt(&block);
    }
    block[0]
}

// Makes the schedule of a key, and then of a block under it. What is repeated is all that differs from above, and all that is measured.
pub fn keys(count: usize) -> u8 {
    let mut key = [7u8; 16];
    for _ in 0..count {
        key = Aes128::new(&key).encrypt(&[0; 16]);
    }
    key[0]
}

// Hashes blocks of 136 bytes.
pub fn hashed(count: usize) -> u8 {
    let mut hasher = Hasher::new(0);
    for _ in 0..count {
        hasher.update(&[7; 136]);
    }
    let digest = hasher.finish();
    digest[0]
}
