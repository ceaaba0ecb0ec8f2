// Appending: definitions (specs/) and laws (proofs/), and the type of what an append answers.
#![tactic(auto)]

// The new end, the manifest's id and the number of its entries.
#[derive(Clone, Copy)]
pub struct Appended {
    pub end: usize,
    pub id: u64,
    pub count: usize,
}
