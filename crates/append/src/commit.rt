// The last part of an append, behind the tests of the file, the batch and the ids: the limits, then all is written.
ghost use Rattle.std.specs.Prelude.{◌≡◌, true, ◌+◌, ◌-◌, ◌≤◌, ◌<◌, ◌^◌, ltb, length, take};
ghost use Rattle.answers.specs.Answer.{numbered};
ghost use Rattle.segment.specs.index.Offsets.{most};
ghost use Rattle.manifest.specs.Opening.{opened};
ghost use Rattle.batch.specs.Form.{body_count, bodies_of};
ghost use Rattle.appending.specs.Append.{appended_answer};
ghost use Rattle.append.specs.commit.Commit.{next_id_of, commit_answer, commit_buffer};
ghost use Rattle.append.specs.commit.Base.{Base};
ghost use Rattle.append.specs.vectors.Vectors.{body_sums};
ghost use Rattle.answers.specs.limits.Limits.{max_entries};

use crate::form::Batch;
use answers::Refusal;
use appending::Appended;

// Whether the new manifest's id would pass the largest number: ids go on from the last one, or from 0 in an empty file.
fn ids_over(last: Option<u64>, m: u64) -> bool
    requires { m ≤ 16 }
    ensures { result ≡ ltb (2 ^ 64 - 1) (next_id_of last + m) }
{
    match last {
        None => false,
        Some(id) => u64::MAX - id <= m,
    }
}

// The next id.
fn next_id(last: Option<u64>) -> u64
    requires { next_id_of last < 2 ^ 64 }
    ensures { result ≡ next_id_of last }
{
    match last {
        None => 0,
        Some(id) => id + 1,
    }
}

// The rest of an append, behind the tests of the file, the batch and the ids: 12, 13, 1, 9; then all is written. The
// file is what is kept, the bytes up to the start. The bodies' checksums are known from the tests of the batch.
pub fn commit(
    buf: &mut [u8],
    batch: &Batch,
    start: usize,
    kept: usize,
    last: Option<u64>,
    timestamp: u64,
    offsets: &mut [u64],
    states: &[u8],
    sums: &[u32],
) -> Result<Appended, Refusal>
    requires lists { (length offsets.old ≡ most) × (length states.now ≡ max_entries) }
    requires base { Base (take start buf.old) offsets.old start kept last }
    requires sums_value { take (body_count batch.now.bytes.now) sums.now
        ≡ body_sums (bodies_of batch.now.bytes.now) }
    ensures answer { appended_answer (numbered result) ≡ commit_answer (length buf.old)
        (opened (take start buf.old)) (bodies_of batch.now.bytes.now) }
    ensures buf { buf.new ≡ commit_buffer (opened (take start buf.old)) buf.old
        (bodies_of batch.now.bytes.now) states.now timestamp }
{
    let m = batch.count();
    let count = kept + m;
    if count > answers::limits::MAX_ENTRIES {
        return Err(Refusal::DirectoryFull);
    }
    if ids_over(last, m as u64) {
        return Err(Refusal::IdsUsedUp);
    }
    let next = next_id(last);
    let at = crate::bodies::bodies_end(batch, start);
    let end = at
        + 64
        + octets::round_up(
            octets::round_up(manifest::fields::RECORD_HEAD + manifest::fields::ENTRY_SIZE * count)
                + manifest::fields::ROOT_SIZE,
        );
    if end > answers::limits::MAX_FILE {
        return Err(Refusal::FileTooLong);
    }
    if end > buf.len() {
        return Err(Refusal::NoRoom);
    }
    let id = next + m as u64;
    crate::bodies::put_bodies(buf, batch, start, next, timestamp, offsets, kept, sums);
    crate::new_manifest::put_manifest(buf, at, id, timestamp, &offsets[..count], &states[..count]);
    Ok(Appended { end, id, count })
}
