// The directory of a file's manifest: what is read of it is read off the file itself. A confirmed manifest says of a
// link what the link's own header says; the state stands in the manifest alone.
ghost use Rattle.std.specs.Prelude.{◌≡◌, true, ◌+◌, ◌≤◌, ◌<◌, Ok, Err, IfOk, IfErr, length, get_or};
ghost use Rattle.octets.specs.le.Le.{Bytes};
ghost use Rattle.answers.specs.Answer.{refusal_number, numbered};
ghost use Rattle.answers.specs.limits.Limits.{max_file};
ghost use Rattle.segment.specs.Header.{length_at};
ghost use Rattle.segment.specs.index.Offsets.{most};
ghost use Rattle.manifest.specs.Payload.{state_place};
ghost use Rattle.manifest.specs.Opening.{opened, opened_case};
ghost use Rattle.manifest.specs.Directory.{entry_case};
ghost use Rattle.opening.specs.FileManifest.{manifest_of};
ghost use Rattle.opening.specs.Indexed.{Indexed, stands};
ghost use Rattle.opening.specs.directory.Entry.{entry_read_at};

use crate::FileManifest;
use answers::Refusal;
use manifest::DirectoryEntry;

// A directory: the file, the offsets of the chain's first links, and the manifest that opening found.
#[derive(Clone, Copy)]
pub struct Directory<'a> {
    pub file: &'a [u8],
    pub offsets: &'a [u64],
    pub manifest: FileManifest,
    ghost bytes: { Bytes file.now },
    ghost room: { most ≤ length offsets.now },
    ghost indexed: { Indexed file.now offsets.now },
    ghost within: { length file.now ≤ max_file },
    ghost opens: { stands (opened file.now) manifest.offset manifest.count ≡ true },
}

impl<'a> Directory<'a> {
    // Where the link of an entry begins. Its header and its payload lie in the file.
    pub fn place(&self, i: usize) -> usize
        requires { i < self.now.manifest.count }
        ensures place { result ≡ get_or self.now.offsets.now i 0 }
        ensures within { result + (64 + length_at self.now.file.now result) ≤ length self.now.file.now }
    {
        self.offsets[i] as usize
    }

    // The state that the manifest says of an entry: 0 where it is live.
    pub fn state(&self, i: usize) -> u8
        requires { i < self.now.manifest.count }
        ensures { result ≡ get_or self.now.file.now (state_place self.now.manifest.offset i) 0 }
    {
        self.file[self.manifest.offset
            + manifest::fields::ENTRIES
            + manifest::fields::ENTRY_SIZE * i
            + manifest::fields::STATE]
    }

    // An entry with all its fields.
    pub fn entry(&self, i: usize) -> DirectoryEntry
        requires { i < self.now.manifest.count }
        ensures { result ≡ entry_read_at self.now.file.now (get_or self.now.offsets.now i 0)
            (state_place self.now.manifest.offset i) }
    {
        let p = self.place(i);
        DirectoryEntry {
            offset: p as u64,
            id: octets::le::u64_at(self.file, p + segment::fields::ID),
            length: octets::le::u64_at(self.file, p + segment::fields::LENGTH),
            hash_low: octets::le::u64_at(self.file, p + segment::fields::HASH),
            hash_high: octets::le::u64_at(self.file, p + segment::fields::HASH_HIGH),
            kind: self.file[p + segment::fields::KIND],
            state: self.state(i),
            flags: octets::le::u16_at(self.file, p + segment::fields::FLAGS),
        }
    }
}

// The directory of a file, with the offsets of the first links in a list of the caller's; 1 and 2 as opening has them.
pub fn directory_of<'a>(file: &'a [u8], offsets: &'a mut [u64]) -> Result<Directory<'a>, Refusal>
    requires { most ≤ length offsets.old }
    ensures file { IfOk result (λ d. d.file.now ≡ file.now) }
    ensures manifest { IfOk result (λ d. manifest_of (opened_case file.now) ≡ Ok d.manifest) }
    ensures err { IfErr result (λ e. manifest_of (opened_case file.now) ≡ Err (refusal_number e)) }
{
    let manifest = crate::file_manifest(file, &mut *offsets)?;
    Ok(Directory {
        file,
        offsets,
        manifest,
    })
}

// The entry with an index in the directory of the file's manifest; 1 and 2 as opening has them.
pub fn entry(file: &[u8], index: u64) -> Result<Option<DirectoryEntry>, Refusal>
    ensures { numbered result ≡ entry_case file.now index }
{
    let mut offsets = [0u64; segment::index::MOST];
    let directory = directory_of(file, &mut offsets)?;
    if index >= directory.manifest.count as u64 {
        return Ok(None);
    }
    Ok(Some(directory.entry(index as usize)))
}
