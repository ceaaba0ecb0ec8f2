// A batch appended to the file that is the first n bytes of a buffer, the new file cut k bytes behind where the
// append started, and a vector read out of what is left. It is promised by the file before the append alone: that a
// cut batch changes no answer is the claim about every list of appends.
ghost use Rattle.std.specs.Prelude.{◌≡◌, ◌≤◌, length};
ghost use Rattle.manifest.specs.Opening.{opened};
ghost use Rattle.appending.specs.Append.{start_of, append_buffer};
ghost use Rattle.claim_uses.specs.cut.CutRead.{CutReadPromise};
ghost use Rattle.answers.specs.limits.Limits.{max_file};

use answers::Refusal;
use manifest::Opened;
use vecseg::Vector;

// What reading the cut file answers; or why the append refused; or that k leaves all of the new bytes.
#[derive(Drop)]
pub enum CutRead {
    Read(Result<Vector, Refusal>),
    NotAppended(Refusal),
    NotCut,
}

// Where an append to a file starts: its manifest's end, or 0 where there is none.
fn start_of(file: &[u8]) -> usize
    ensures { length file.now ≤ max_file → result ≡ start_of (opened file.now) }
{
    match opening::open(file) {
        Ok(
            Opened::At {
                offset: _,
                end,
                id: _,
                count: _,
                tried: _,
            },
        ) => end,
        Ok(Opened::NoManifest { tried: _ }) => 0,
        Err(_) => 0,
    }
}

// The vector with an id in the cut file: what the file before the append has.
pub fn append_and_cut(
    buf: &mut [u8],
    n: u64,
    batch: &[u8],
    ids: &[u64],
    timestamp: u64,
    k: usize,
    id: u64,
    out: &mut [u8],
) -> CutRead
    ensures answer { CutReadPromise buf.old n batch.now ids.now k id
        out.old out.new result }
    ensures buf { buf.new ≡ append_buffer buf.old n batch.now
        ids.now timestamp }
{
    if n > buf.len() as u64 {
        return CutRead::NotAppended(Refusal::NoRoom);
    }
    let size = n as usize;
    let start = start_of(&buf[..size]);
    match append::append(buf, n, batch, ids, timestamp) {
        Err(refusal) => CutRead::NotAppended(refusal),
        Ok(appended) => {
            let end = appended.end;
            if k >= end - start {
                return CutRead::NotCut;
            }
            let cut = start + k;
            CutRead::Read(lookup::vector::vector(&buf[..cut], id, out))
        }
    }
}
