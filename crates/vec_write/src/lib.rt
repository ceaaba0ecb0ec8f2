// The one-block vector writer: 14 for input that breaks a rule, then 9 for a buffer without room; else the payload,
// and its length.
#![tactic(auto)]

pub mod parts;

ghost use Rattle.std.specs.Prelude.{◌≡◌, ◌+◌, ◌<◌, IfOk};
ghost use Rattle.answers.specs.Answer.{numbered, refused_by};
ghost use Rattle.answers.specs.Write.{write_answer, write_buffer};
ghost use Rattle.vecseg.specs.Writer.{vec_bad, vec_bytes};

use answers::Refusal;
use idmap_write::Map;

// The id map of an input that is taken; 14 where it breaks a rule. Count, dim and width are bounded before they are
// multiplied.
// Kept: dtype, tier and encoding are any numbers, since C may hand over any: `rvf_vec_write` promises 14 for those that
// are none.
fn check<'a>(
    ids: &'a [u64],
    columns: &[u8],
    dim: u64,
    dtype: u64,
    tier: u64,
    encoding: u64,
    interval: u64,
) -> Result<Map<'a>, Refusal>
    ensures answer { refused_by result ≡ vec_bad ids.now columns.now dim dtype tier encoding interval }
    ensures fields { IfOk result (λ map. (map.ids.now ≡ ids.now)
        × ((map.encoding ≡ encoding) × (map.interval ≡ interval))) }
{
    let w = vec_read::width::width_of(dtype) as u64;
    if w == 0 {
        return Err(Refusal::Input);
    }
    if dim < 1 {
        return Err(Refusal::Input);
    }
    if dim > answers::limits::MAX_DIM as u64 {
        return Err(Refusal::Input);
    }
    if tier > 255 {
        return Err(Refusal::Input);
    }
    if ids.len() > answers::limits::MAX_VECTORS {
        return Err(Refusal::Input);
    }
    if columns.len() as u64 != ids.len() as u64 * dim * w {
        return Err(Refusal::Input);
    }
    Map::of(ids, encoding, interval)
}

// The payload of one block at the front of a buffer, and its length.
pub fn write(
    buf: &mut [u8],
    ids: &[u64],
    columns: &[u8],
    dim: u64,
    dtype: u64,
    tier: u64,
    encoding: u64,
    interval: u64,
) -> Result<usize, Refusal>
    ensures answer { numbered result ≡ write_answer (vec_bad ids.now
        columns.now dim dtype tier encoding interval)
        (vec_bytes ids.now columns.now dim dtype tier encoding interval) buf.old }
    ensures buf { buf.new ≡ write_buffer (vec_bad ids.now
        columns.now dim dtype tier encoding interval)
        (vec_bytes ids.now columns.now dim dtype tier encoding interval) buf.old }
{
    let map = check(ids, columns, dim, dtype, tier, encoding, interval)?;
    let end = columns.len() + map.size();
    let n = 64 + octets::round_up(end + 4);
    if buf.len() < n {
        return Err(Refusal::NoRoom);
    }
    crate::parts::put_directory(buf, ids.len() as u64, dim, dtype, tier);
    crate::parts::put_block(&mut buf[64..], columns, &map, end);
    Ok(n)
}
