// Getting room back: definitions (specs/) and laws (proofs/), and the type of what is answered.
#![tactic(auto)]

// The fresh file's end, its manifest's id and the number of its entries.
#[derive(Clone, Copy)]
pub struct Compacted {
    pub end: usize,
    pub id: u64,
    pub count: usize,
}
