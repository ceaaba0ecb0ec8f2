// A file compacted into a buffer, a batch appended to the fresh file there, and that file opened. What opening answers
// is promised by the model alone, which starts anew from what compaction wrote.
ghost use Rattle.std.specs.Prelude.{◌≡◌};
ghost use Rattle.claim_uses.specs.anew.Anew.{AnewPromise, anew_buffer};

use answers::Refusal;
use manifest::Opened;

// The fresh file after the append, opened. Where compaction or the append refuses, its number; what opening answers
// else is the model's, and never that there is no manifest.
pub fn compact_and_append(
    file: &[u8],
    buf: &mut [u8],
    batch: &[u8],
    retire: &[u64],
    timestamp: u64,
) -> Result<Opened, Refusal>
    ensures answer { AnewPromise file.now buf.old batch.now
        retire.now timestamp result }
    ensures buf { buf.new ≡ anew_buffer file.now buf.old batch.now
        retire.now timestamp }
{
    let fresh = compact::compact(file, buf)?;
    let appended = append::append(buf, fresh.end as u64, batch, retire, timestamp)?;
    opening::open(&buf[..appended.end])
}
