// Appending a batch to a file. Every test is made before the first byte is written: a refusal leaves the buffer as it
// was.
#![tactic(auto)]

pub mod bodies;
pub mod commit;
pub mod form;
pub mod new_manifest;
pub mod retire;
pub mod vectors;

ghost use Rattle.std.specs.Prelude.{◌≡◌, ◌++◌, ◌+◌, ◌-◌, ◌≤◌, ◌<◌, IfOk, OnOk, length, take, replicate};
ghost use Rattle.answers.specs.Answer.{numbered, refused_by};
ghost use Rattle.octets.specs.Over.{over};
ghost use Rattle.manifest.specs.Opening.{opened};
ghost use Rattle.manifest.specs.At.{Inside};
ghost use Rattle.batch.specs.Form.{body_count, bodies_of};
ghost use Rattle.appending.specs.Retire.{retire_held, retired};
ghost use Rattle.appending.specs.Append.{old_links, old_states, Appends, appended_answer};
ghost use Rattle.append.specs.commit.Answer.{batch_number};
ghost use Rattle.append.specs.Entries.{entry_ids_at, kinds_at};
ghost use Rattle.append.specs.retire.Marks.{retire_number};
ghost use Rattle.append.specs.vectors.Vectors.{body_sums};
ghost use Rattle.answers.specs.limits.Limits.{max_bodies, max_entries};

use crate::form::Batch;
use answers::Refusal;
use appending::Appended;
use manifest::Opened;
use opening::FileManifest;
use opening::directory::Directory;

// The batch that some bytes are: 10 for its form, then what refuses its first bad vector body; where it is taken, the
// checksums of its bodies stand at the front of a list.
fn read_batch<'a>(bytes: &'a [u8], sums: &mut [u32]) -> Result<Batch<'a>, Refusal>
    requires { max_bodies ≤ length sums.old }
    ensures answer { refused_by result ≡ batch_number bytes.now }
    ensures bytes { IfOk result (λ batch. batch.bytes.now ≡ bytes.now) }
    ensures sums { OnOk result (take (body_count bytes.now) sums.new
        ≡ body_sums (bodies_of bytes.now)) }
{
    let batch = Batch::read(bytes)?;
    crate::vectors::check_vectors(&batch, sums)?;
    Ok(batch)
}

// The ids and types of the links at some offsets, at the front of two lists.
fn read_entries(file: &[u8], offsets: &[u64], entry_ids: &mut [u64], kinds: &mut [u8])
    requires offsets_in_bounds { (length offsets.now ≤ length entry_ids.old) × (length offsets.now ≤ length kinds.old) }
    requires inside { Inside file.now offsets.now }
    ensures entry_ids { entry_ids.new ≡ over entry_ids.old 0
        (entry_ids_at file.now offsets.now) }
    ensures kinds { kinds.new ≡ over kinds.old 0
        (kinds_at file.now offsets.now) }
{
    for (i, place) in offsets.iter().enumerate() {
        let offset = *place as usize;
        entry_ids[i] = octets::le::u64_at(file, offset + segment::fields::ID);
        kinds[i] = file[offset + segment::fields::KIND];
    }
}

// The states of a directory with some ids retired, in a list of zeros; 11 where an id may not be retired.
fn retire_states(directory: &Directory, ids: &[u64], states: &mut [u8]) -> Result<(), Refusal>
    requires { states.old ≡ replicate max_entries 0 }
    ensures answer { refused_by result ≡ retire_number (retire_held (old_links (opened directory.now.file.now))
        (old_states (opened directory.now.file.now))
        ids.now) }
    ensures states { OnOk result (states.new ≡ retired (old_links (opened directory.now.file.now))
        (old_states (opened directory.now.file.now)) ids.now
        ++ replicate (max_entries - directory.now.manifest.count) 0) }
{
    let file = directory.file;
    let manifest = directory.manifest.offset;
    let count = directory.manifest.count;
    let body = manifest + 64;
    let end = body + octets::le::u64_at(file, manifest + segment::fields::LENGTH) as usize;
    confirm::states::read_states(states, &file[body..end], count);
    let mut entry_ids = [0u64; answers::limits::MAX_ENTRIES];
    let mut kinds = [0u8; answers::limits::MAX_ENTRIES];
    read_entries(
        file,
        &directory.offsets[..count],
        &mut entry_ids,
        &mut kinds,
    );
    crate::retire::mark(
        &entry_ids[..count],
        &kinds[..count],
        &mut states[..count],
        ids,
    )
}

// A batch appended to the file that is the first n bytes of a buffer, some ids retired. In order: n above the buffer
// 9, n above the limit 1, no manifest in a file that is not empty 2, the batch's form 10, its vector bodies 5, 6, 7,
// retirement 11, entries 12, ids 13, the new end above the limit 1 or the buffer 9.
pub fn append(
    buf: &mut [u8],
    n: u64,
    batch: &[u8],
    ids: &[u64],
    timestamp: u64,
) -> Result<Appended, Refusal>
    ensures { Appends buf.old n batch.now ids.now timestamp (appended_answer (numbered result))
        buf.new }
{
    if n > buf.len() as u64 {
        return Err(Refusal::NoRoom);
    }
    if n > answers::limits::MAX_FILE as u64 {
        return Err(Refusal::FileTooLong);
    }
    let size = n as usize;
    let mut offsets = [0u64; segment::index::MOST];
    let mut sums = [0u32; answers::limits::MAX_BODIES];
    match opening::open_with(&buf[..size], &mut offsets)? {
        Opened::NoManifest { tried: _ } => {
            if size > 0 {
                return Err(Refusal::NoManifest);
            }
            let read = read_batch(batch, &mut sums)?;
            if ids.len() > 0 {
                return Err(Refusal::Retire);
            }
            let states = [0u8; answers::limits::MAX_ENTRIES];
            crate::commit::commit(
                buf,
                &read,
                0,
                0,
                None,
                timestamp,
                &mut offsets,
                &states,
                &sums,
            )
        }
        Opened::At {
            offset,
            end,
            id,
            count,
            tried,
        } => {
            let read = read_batch(batch, &mut sums)?;
            let mut states = [0u8; answers::limits::MAX_ENTRIES];
            let directory = Directory {
                file: &buf[..size],
                offsets: &offsets,
                manifest: FileManifest {
                    offset,
                    end,
                    count,
                    tried,
                },
            };
            retire_states(&directory, ids, &mut states)?;
            let start = end;
            crate::commit::commit(
                buf,
                &read,
                start,
                count + 1,
                Some(id),
                timestamp,
                &mut offsets,
                &states,
                &sums,
            )
        }
    }
}
