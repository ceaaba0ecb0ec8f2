// Opening a file: the search from its end for the last confirmed manifest of the chain.
#![tactic(auto)]

pub mod directory;

ghost use Rattle.std.specs.Prelude.{◌≡◌, ◌+◌, ◌≤◌, ◌<◌, length, take};
ghost use Rattle.segment.specs.Chained.{chain, offsets_of};
ghost use Rattle.segment.specs.index.Offsets.{most, link_no, Stored};
ghost use Rattle.segment.specs.index.Numbered.{Numbered};
ghost use Rattle.manifest.specs.Payload.{confirmed};
ghost use Rattle.manifest.specs.Opening.{opened, found_case, opened_case};
ghost use Rattle.answers.specs.Answer.{numbered};
ghost use Rattle.answers.specs.limits.Limits.{max_file};
ghost use Rattle.opening.specs.Indexed.{Indexed};
ghost use Rattle.opening.specs.FileManifest.{manifest_of};

use answers::Refusal;
use manifest::Opened;

// Whether the link that begins at p is a confirmed manifest, where the links before it in the chain begin at these
// offsets.
fn candidate(file: &[u8], before: &[u64], p: usize) -> bool
    requires before { before.now ≡ offsets_of (take (length before.now) (chain file.now)) }
    requires numbered { Numbered file.now p (length before.now)
        (link_no file.now (length before.now)) }
    ensures { result ≡ confirmed (take (length before.now) (chain file.now))
        (link_no file.now (length before.now)) }
{
    let len = octets::le::u64_at(file, p + segment::fields::LENGTH) as usize;
    let id = octets::le::u64_at(file, p + segment::fields::ID);
    let kind = file[p + segment::fields::KIND];
    confirm::is_confirmed(file, before, p, len, kind, id)
}

// Down from the last multiple of 64 that has 64 bytes after it, by 64. The offsets of the chain's first links rise,
// so the last of those that are left tells whether a link begins at a boundary; only there is more than that looked
// at.
fn find_from_end(file: &[u8], offsets: &[u64]) -> Opened
    requires stored { Stored file.now offsets.now (length offsets.now) }
    requires within { length file.now ≤ max_file }
    ensures { result ≡ found_case file.now (opened file.now) }
{
    let boundaries = file.len() / 64;
    let mut left = offsets;
    for tried in 1..=boundaries {
        let p = (boundaries - tried) * 64;
        let Some((last, before)) = left.split_last() else {
            continue;
        };
        if *last != p as u64 {
            continue;
        }
        if candidate(file, before, p) {
            let len = octets::le::u64_at(file, p + segment::fields::LENGTH) as usize;
            return Opened::At {
                offset: p,
                end: p + 64 + octets::round_up(len),
                id: octets::le::u64_at(file, p + segment::fields::ID),
                count: before.len(),
                tried,
            };
        }
        left = before;
    }
    Opened::NoManifest { tried: boundaries }
}

// The file's manifest, with the offsets of the first links left in a list for the calls that go on from there; 1 for
// a file above the limit, then 2 where no manifest is confirmed.
// Kept: any list with room is taken, since an array's own type would ask more of a caller.
pub fn open_with(file: &[u8], offsets: &mut [u64]) -> Result<Opened, Refusal>
    requires { most ≤ length offsets.old }
    ensures answer { numbered result ≡ opened_case file.now }
    ensures offsets { length file.now ≤ max_file
        → Indexed file.now offsets.new }
{
    if file.len() > answers::limits::MAX_FILE {
        return Err(Refusal::FileTooLong);
    }
    let n = segment::index::collect(file, offsets);
    Ok(find_from_end(file, &offsets[..n]))
}

// What a call that goes on from the directory learns of the file's manifest: its offset and end, the number of its
// entries and the boundaries tried.
#[derive(Clone, Copy)]
pub struct FileManifest {
    pub offset: usize,
    pub end: usize,
    pub count: usize,
    pub tried: usize,
}

// The file's manifest for such a call, with the offsets of the first links.
pub fn file_manifest(file: &[u8], offsets: &mut [u64]) -> Result<FileManifest, Refusal>
    requires { most ≤ length offsets.old }
    ensures answer { numbered result ≡ manifest_of (opened_case file.now) }
    ensures offsets { length file.now ≤ max_file
        → Indexed file.now offsets.new }
{
    match open_with(file, offsets)? {
        Opened::NoManifest { tried: _ } => Err(Refusal::NoManifest),
        Opened::At {
            offset,
            end,
            id: _,
            count,
            tried,
        } => Ok(FileManifest {
            offset,
            end,
            count,
            tried,
        }),
    }
}

// The file's manifest.
pub fn open(file: &[u8]) -> Result<Opened, Refusal>
    ensures { numbered result ≡ opened_case file.now }
{
    let mut offsets = [0u64; segment::index::MOST];
    open_with(file, &mut offsets)
}
