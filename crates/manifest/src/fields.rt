// The numbers of a manifest's form (document 01, 'The manifest'): its type, its record, an entry's fields, the root's
// fields. The type of a manifest's segment.
pub const KIND: u8 = 0x05;
// The record's tag, length and zeros before its entries; and where these begin, from the segment's first byte on.
pub const RECORD_HEAD: usize = 8;

pub const ENTRIES: usize = 72;
// An entry, and where its fields stand in it: the offset first, id and payload length side by side, the hash, type,
// state, flags, zeros.
pub const ENTRY_SIZE: usize = 48;

pub const ID: usize = 8;

pub const HASH: usize = 24;

pub const ENTRY_KIND: usize = 40;

pub const STATE: usize = 41;

pub const FLAGS: usize = 42;

pub const ZEROS: usize = 44;
// The root behind the record.
pub const ROOT_SIZE: usize = 4096;

pub const ROOT_VERSION: usize = 4;

pub const ROOT_COUNT: usize = 6;

pub const ROOT_OFFSET: usize = 8;

pub const ROOT_ID: usize = 16;

pub const ROOT_RECORD: usize = 24;

pub const ROOT_END: usize = 32;

pub const ROOT_ZEROS: usize = 40;

pub const ROOT_CHECKSUM: usize = 4092;
// The longest payload: that of a manifest with answers::limits::MAX_ENTRIES entries.
pub const MAX_PAYLOAD: usize = 53312;
