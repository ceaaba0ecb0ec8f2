// The bounds of document 01, as the code has them. specs/limits/Limits.antt has the same numbers for the definitions.
// Vectors in a block, and so ids in a map: 1 to this.
pub const MAX_VECTORS: usize = 4096;
// The restart interval that a delta map gets where 0 is asked.
pub const DEFAULT_INTERVAL: u64 = 64;
// Blocks in a VEC_SEG payload: 0 to this.
pub const MAX_BLOCKS: usize = 64;
// Values of a vector: 1 to this.
pub const MAX_DIM: usize = 1024;
// Bytes of a file: 0 to this.
pub const MAX_FILE: usize = 16777216;
// Entries of a directory: 0 to this.
pub const MAX_ENTRIES: usize = 1024;
// Bodies in a batch: 0 to this.
pub const MAX_BODIES: usize = 16;
// Bytes of a batch: 16 to this.
pub const MAX_BATCH: usize = 1048576;
