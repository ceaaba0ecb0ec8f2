// Two batches appended to an empty file, the second with some ids retired, and the file opened. What opening answers
// is promised by the model alone: that the two agree is the claim about every list of appends.
ghost use Rattle.std.specs.Prelude.{◌≡◌};
ghost use Rattle.claim_uses.specs.twice.Twice.{TwicePromise, twice_buffer};

use answers::Refusal;
use manifest::Opened;

// What opening answers at the end: the manifest's offset, end and id and the number of its entries.
#[derive(Clone, Copy)]
pub struct Twice {
    pub offset: usize,
    pub end: usize,
    pub id: u64,
    pub count: usize,
}

// The file after the two appends, opened. Where an append refuses, its number; what opening answers else is the
// model's, and never that there is no manifest.
pub fn append_twice(
    buf: &mut [u8],
    first: &[u8],
    second: &[u8],
    retire: &[u64],
    timestamp: u64,
) -> Result<Option<Twice>, Refusal>
    ensures answer { TwicePromise buf.old first.now second.now
        retire.now timestamp result }
    ensures buf { buf.new ≡ twice_buffer buf.old first.now second.now
        retire.now timestamp }
{
    let one = append::append(buf, 0, first, &retire[..0], timestamp)?;
    let two = append::append(buf, one.end as u64, second, retire, timestamp)?;
    match opening::open(&buf[..two.end]) {
        Ok(
            Opened::At {
                offset,
                end,
                id,
                count,
                tried: _,
            },
        ) => Ok(Some(Twice {
            offset,
            end,
            id,
            count: count,
        })),
        Ok(Opened::NoManifest { tried: _ }) => Ok(None),
        Err(_) => Ok(None),
    }
}
