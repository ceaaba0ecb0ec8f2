// Files: opening, and the directory of the file's manifest.
ghost use Rattle.std.specs.Prelude.{◌≡◌};
ghost use Rattle.answers.specs.Answer.{number};
ghost use Rattle.manifest.specs.Opening.{open_answer, open_out};
ghost use Rattle.manifest.specs.Directory.{entry_case, entry_number, entry_out};

use answers::Refusal;
use manifest::{DirectoryEntry, Opened};

// The file's manifest: offset, end, id, the number of its entries and the boundaries tried; 1; or 2, which writes the
// boundaries tried alone.
#[tactic(auto, unfolding(answers::specs::Answer::number, manifest::specs::Opening::open_answer, manifest::specs::Opening::opened_answer, manifest::specs::Opening::open_out))]
#[unsafe(no_mangle)]
pub extern "C" fn rvf_open(file: &[u8], out: &mut [u64; 5]) -> u32
    ensures number { result ≡ number (open_answer file.now) }
    ensures values { out.new ≡ open_out out.old (open_answer file.now) }
{
    match opening::open(file) {
        Err(refusal) => refusal.number(),
        Ok(Opened::NoManifest { tried }) => {
            out[4] = tried as u64;
            Refusal::NoManifest.number()
        }
        Ok(
            Opened::At {
                offset,
                end,
                id,
                count,
                tried,
            },
        ) => {
            out[0] = offset as u64;
            out[1] = end as u64;
            out[2] = id;
            out[3] = count as u64;
            out[4] = tried as u64;
            0
        }
    }
}

// The entry with an index in the directory: offset, id, payload length, hash bytes 0 to 7 and 8 to 15, type, state,
// flags; or 1, 2. Where the index is not below the number of entries it returns 255, which is no refusal.
#[tactic(auto, unfolding(manifest::specs::Directory::entry_number, manifest::specs::Directory::entry_out))]
#[unsafe(no_mangle)]
pub extern "C" fn rvf_entry(file: &[u8], index: u64, out: &mut [u64; 8]) -> u32
    ensures number { result ≡ entry_number (entry_case file.now index) }
    ensures values { out.new ≡ entry_out out.old (entry_case file.now index) }
{
    match opening::directory::entry(file, index) {
        Err(refusal) => refusal.number(),
        Ok(None) => 255,
        Ok(
            Some(
                DirectoryEntry {
                    offset,
                    id,
                    length,
                    hash_low,
                    hash_high,
                    kind,
                    state,
                    flags,
                },
            ),
        ) => {
            out[0] = offset;
            out[1] = id;
            out[2] = length;
            out[3] = hash_low;
            out[4] = hash_high;
            out[5] = kind as u64;
            out[6] = state as u64;
            out[7] = flags as u64;
            0
        }
    }
}
