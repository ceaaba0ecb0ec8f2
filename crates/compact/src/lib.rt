// Getting room back: a fresh file of a file's live segments, written into a buffer.
#![tactic(auto)]

pub mod copies;
pub mod select;

ghost use Rattle.std.specs.Prelude.{◌≡◌, ◌≤◌, length};
ghost use Rattle.answers.specs.Answer.{numbered};
ghost use Rattle.segment.specs.index.Offsets.{most};
ghost use Rattle.opening.specs.Indexed.{ManifestAt, Indexed};
ghost use Rattle.compacting.specs.Compact.{compact_case, compact_buffer};

use answers::Refusal;
use compacting::Compacted;

// The same of a file whose manifest is found: 4, then 9.
fn compact_from(
    file: &[u8],
    buf: &mut [u8],
    offsets: &mut [u64],
    manifest: usize,
    count: usize,
) -> Result<Compacted, Refusal>
    requires most_in_bounds { most ≤ length offsets.old }
    requires indexed { Indexed file.now offsets.old }
    requires manifest_at { ManifestAt file.now manifest count }
    ensures answer { numbered result ≡ compact_case file.now buf.old }
    ensures buf { buf.new ≡ compact_buffer file.now buf.old }
{
    let selected = crate::select::select(file, offsets, manifest, count)?;
    let n = selected.count;
    let at = selected.end;
    let end = at
        + 64
        + octets::round_up(
            octets::round_up(manifest::fields::RECORD_HEAD + manifest::fields::ENTRY_SIZE * n)
                + manifest::fields::ROOT_SIZE,
        );
    if end > buf.len() {
        return Err(Refusal::NoRoom);
    }
    let id = octets::le::u64_at(file, manifest + segment::fields::ID);
    let timestamp = octets::le::u64_at(file, manifest + segment::fields::TIMESTAMP);
    crate::copies::put_file(buf, file, &mut offsets[..n], at, id, timestamp);
    Ok(Compacted { end, id, count: n })
}

// A fresh file of the live segments but manifests, in the directory's order, with one manifest behind them: the end,
// the manifest's id, the number of its entries. 1, 2, then 4 where a segment to be copied is not whole, then 9. On a
// refusal nothing is written.
pub fn compact(file: &[u8], buf: &mut [u8]) -> Result<Compacted, Refusal>
    ensures answer { numbered result ≡ compact_case file.now buf.old }
    ensures buf { buf.new ≡ compact_buffer file.now buf.old }
{
    let mut offsets = [0u64; segment::index::MOST];
    let manifest = opening::file_manifest(file, &mut offsets)?;
    compact_from(file, buf, &mut offsets, manifest.offset, manifest.count)
}
