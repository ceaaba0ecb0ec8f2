// Reading by id: definitions (specs/) and laws (proofs/), and the types of what is answered.
#![tactic(auto)]

// Where a payload begins in the file, and how long it is.
#[derive(Clone, Copy)]
pub struct PayloadPlace {
    pub start: usize,
    pub length: usize,
}

// A component's dtype and the bytes of its value as a number, so that a NaN keeps its payload.
#[derive(Clone, Copy)]
pub struct ComponentBits {
    pub dtype: u8,
    pub bits: u32,
}
