// The numbers that a key pair is made for.

// By which a record names its field, lock and expander. Any bytes may stand there, so they are numbers; the crate `suites` has the
// kinds that they name as enums.
#[derive(Clone, Copy, PartialEq, Eq)]
pub struct Codes {
    pub field: u8,
    pub lock: u8,
    pub expander: u8,
}

// The numbers of a lock: the word x has m elements, k of them are free, and w is its weight or the number of its blocks.
#[derive(Clone, Copy, PartialEq, Eq)]
pub struct Shape {
    pub m: u16,
    pub k: u16,
    pub w: u16,
}

// There are 2^a places and 2^b rounds; the batching has rho rows, and a cover at most t nodes.
#[derive(Clone, Copy, PartialEq, Eq)]
pub struct Profile {
    pub codes: Codes,
    pub shape: Shape,
    pub a: u8,
    pub b: u8,
    pub rho: u8,
    pub t: u16,
}
