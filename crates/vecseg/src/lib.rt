// VEC_SEG payloads: definitions (specs/) and laws (proofs/), and the types of what is read out of one.
#![tactic(auto)]

// The type of a VEC_SEG.
pub const KIND: u8 = 0x01;

// A vector that was read: dim, dtype and the length written.
#[derive(Clone, Copy)]
pub struct Vector {
    pub dim: usize,
    pub dtype: u8,
    pub length: usize,
}

// A component: a float, a signed or an unsigned small number.
#[derive(Drop)]
pub enum Component {
    Float(f32),
    Signed(i8),
    Unsigned(u8),
}
