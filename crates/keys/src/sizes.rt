// How many bytes the records of a key pair have.
#[derive(Clone, Copy)]
pub struct KeySizes {
    pub public: usize,
    pub secret: usize,
}
