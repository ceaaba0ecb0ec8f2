// What the calls of the store refuse, each case by its name. A call that writes at the front of a buffer answers the length
// written, or such a refusal.
#![tactic(auto)]

pub mod limits;

ghost use Rattle.std.specs.Prelude.{◌≡◌};
ghost use Rattle.answers.specs.Answer.{refusal_number, refused_by};

use std::error::Error;
use std::fmt;

// Why a call refuses. What it was lent is then as it was.
#[derive(Clone, Copy, Debug, PartialEq, Eq, Hash)]
pub enum Refusal {
    FileTooLong,
    NoManifest,
    NotLive,
    ContentHash,
    Layout,
    Dtype,
    BlockChecksum,
    NoVector,
    NoRoom,
    Batch,
    Retire,
    DirectoryFull,
    IdsUsedUp,
    Input,
    ReservedType,
}

impl Refusal {
    // The number that the exported calls return for it.
    pub fn number(self) -> u32
        ensures { result ≡ refusal_number self }
    {
        match self {
            Refusal::FileTooLong => 1,
            Refusal::NoManifest => 2,
            Refusal::NotLive => 3,
            Refusal::ContentHash => 4,
            Refusal::Layout => 5,
            Refusal::Dtype => 6,
            Refusal::BlockChecksum => 7,
            Refusal::NoVector => 8,
            Refusal::NoRoom => 9,
            Refusal::Batch => 10,
            Refusal::Retire => 11,
            Refusal::DirectoryFull => 12,
            Refusal::IdsUsedUp => 13,
            Refusal::Input => 14,
            Refusal::ReservedType => 15,
        }
    }
}

// The number of an answer: 0 where nothing is refused.
pub fn number_of<T>(answer: &Result<T, Refusal>) -> u32
    ensures { result ≡ refused_by answer.now }
{
    match answer {
        Ok(_) => 0,
        Err(refusal) => refusal.number(),
    }
}

impl fmt::Display for Refusal {
    fn fmt<W: fmt::Write>(&self, f: &mut fmt::Formatter<W>) -> fmt::Result {
        f.write_str(match self {
            Refusal::FileTooLong =>
                "the file, or the file after the append, is above 16,777,216 bytes",
            Refusal::NoManifest => "the file has no confirmed manifest",
            Refusal::NotLive => "no live segment with this id is in the directory",
            Refusal::ContentHash => "a segment's content hash differs",
            Refusal::Layout => "a layout, an id map or a varint breaks a rule",
            Refusal::Dtype => "a block's dtype is not one of f32, i8, u8",
            Refusal::BlockChecksum => "a block's checksum differs",
            Refusal::NoVector =>
                "there is no such vector, or its dim is not above the component's index",
            Refusal::NoRoom => "the buffer is too short",
            Refusal::Batch => "the batch breaks a rule of its form",
            Refusal::Retire =>
                "an id to retire is not in the directory, is a manifest, is retired, or is listed twice",
            Refusal::DirectoryFull => "the directory would have more than 1,024 entries",
            Refusal::IdsUsedUp => "an id would pass 2^64 - 1",
            Refusal::Input => "what is to be written breaks a rule",
            Refusal::ReservedType =>
                "the segment's type is reserved (0x0E to 0xEF): its payload is not handed out",
        })
    }
}

impl Error for Refusal {}
