// Segments of the file: the types and flags that a header may have, the content hash, and whether a link is whole.
#![tactic(auto)]

pub mod chain;
pub mod fields;
pub mod header;
pub mod index;
pub mod link;
pub mod write;

ghost use Rattle.std.specs.Prelude.{◌++◌, ◌≡◌, ◌+◌, ◌≤◌, length, take, drop, replicate};
ghost use Rattle.octets.specs.le.Le.{le_bytes};
ghost use Rattle.crc32c.specs.Crc.{crc_of};
ghost use Rattle.segment.specs.Header.{type_held, type_reserved, flags_held};
ghost use Rattle.segment.specs.Step.{whole_at};

// The bytes that a segment begins with, in file order.
pub const MAGIC: [u8; 4] = [0x52, 0x56, 0x46, 0x53];

// A link that a walk finds at a place: its end, id, payload length, type and flags.
// Kept: a type is the format's byte; all of 0x01 to 0xFF are legal, most without a name (no plainer).
#[derive(Clone, Copy)]
pub struct Step {
    pub end: usize,
    pub id: u64,
    pub length: usize,
    pub kind: u8,
    pub flags: u16,
}

// Whether a segment may have a type.
pub fn kind_held(kind: u8) -> bool
    ensures { result ≡ type_held kind }
{
    kind >= 0x01
}

// Whether a type is reserved: its segments are walked past and listed, but no payload of theirs leaves and no batch
// brings one.
pub fn kind_reserved(kind: u8) -> bool
    ensures { result ≡ type_reserved kind }
{
    (0x0E..=0xEF).contains(&kind)
}

// Whether a segment may have such flags.
pub fn flags_held(flags: u16) -> bool
    ensures { result ≡ flags_held flags }
{
    flags & 0x03C8 == flags
}

// The content hash of a payload, by its checksum.
pub fn hash_by(sum: u32) -> [u8; 16]
    ensures { result ≡ le_bytes 4 sum ++ replicate 12 0 }
{
    let mut hash = [0u8; 16];
    octets::le::put(&mut hash, 0, 4, sum as u64);
    hash
}

// Whether the link at a place is whole, where the checksum of its payload is known: a caller that has read the payload
// already reads it no second time.
pub fn is_whole_by(file: &[u8], at: usize, len: usize, sum: u32) -> bool
    requires len_in_bounds { at + (64 + len) ≤ length file.now }
    requires sum_value { sum ≡ crc_of (take len (drop (at + 64) file.now)) }
    ensures { result ≡ whole_at file.now at len }
{
    let hash = hash_by(sum);
    let from = at + crate::fields::HASH;
    let to = at + crate::fields::UNCOMPRESSED;
    octets::same(&file[from..to], &hash)
}

// Whether the link at a place is whole: its header's hash is that of its payload.
pub fn is_whole(file: &[u8], at: usize, len: usize) -> bool
    requires { at + (64 + len) ≤ length file.now }
    ensures { result ≡ whole_at file.now at len }
{
    let body = at + 64;
    let end = body + len;
    is_whole_by(file, at, len, crc32c::checksum(&file[body..end]))
}
