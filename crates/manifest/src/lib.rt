// Manifests and what opening finds: definitions (specs/) and laws (proofs/), and the types of what is answered about them.
#![tactic(auto)]

pub mod fields;

// What opening a file answers: its manifest's offset, end and id, the number of its entries and the boundaries tried;
// or no manifest with the boundaries tried.
#[derive(Clone, Copy)]
pub enum Opened {
    At {
        offset: usize,
        end: usize,
        id: u64,
        count: usize,
        tried: usize,
    },
    NoManifest {
        tried: usize,
    },
}

// What the directory has at an index: the fields of the entry, the hash as two numbers.
#[derive(Clone, Copy)]
pub struct DirectoryEntry {
    pub offset: u64,
    pub id: u64,
    pub length: u64,
    pub hash_low: u64,
    pub hash_high: u64,
    pub kind: u8,
    pub state: u8,
    pub flags: u16,
}
