// Where the fields of a segment's header stand, from its first byte on (document 002, section 3), and how long a
// header is.
pub const VERSION: usize = 0x04;

pub const KIND: usize = 0x05;

pub const FLAGS: usize = 0x06;

pub const ID: usize = 0x08;

pub const LENGTH: usize = 0x10;

pub const TIMESTAMP: usize = 0x18;

pub const CHECKSUM_ALGO: usize = 0x20;
// compression and the reserved fields, up to the hash
pub const RESERVED: usize = 0x21;

pub const HASH: usize = 0x28;

pub const HASH_HIGH: usize = 0x30;
// uncompressed_len and alignment_pad, up to the header's end
pub const UNCOMPRESSED: usize = 0x38;

pub const HEADER_SIZE: usize = 0x40;
