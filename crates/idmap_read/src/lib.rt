// The id-map reader: the map's length, and its ids at the front of a lent list. Every rule of a map is 5, then a list
// too short for the ids 9.
#![tactic(auto)]

pub mod decode;
pub mod delta;

ghost use Rattle.std.specs.Prelude.{◌≡◌, ◌≤◌, length};
ghost use Rattle.answers.specs.Answer.{numbered};
ghost use Rattle.idmap.specs.Decode.{map_of, read_answer, read_buffer};
ghost use Rattle.answers.specs.limits.Limits.{max_vectors};

use answers::Refusal;

// A map of a count within bounds. Its ids go through a list of our own, since a map that is refused must leave the
// lent one as it was.
fn read_through(
    s: &[u8],
    count: usize,
    ids: &mut [u64],
    scratch: &mut [u64],
) -> Result<usize, Refusal>
    requires { (1 ≤ count) × ((count ≤ max_vectors) × (count ≤ length scratch.old)) }
    ensures answer { numbered result ≡ read_answer (map_of count s.now) ids.old }
    ensures ids { ids.new ≡ read_buffer (map_of count s.now) ids.old }
{
    let n = crate::decode::decode(s, count, scratch)?;
    if ids.len() < count {
        return Err(Refusal::NoRoom);
    }
    ids[..count].copy_from_slice(&scratch[..count]);
    Ok(n)
}

// A short map takes a short list, so that it does not pay for a long one.
pub fn read(s: &[u8], count: u64, ids: &mut [u64]) -> Result<usize, Refusal>
    ensures answer { numbered result ≡ read_answer (map_of count s.now) ids.old }
    ensures ids { ids.new ≡ read_buffer (map_of count s.now) ids.old }
{
    if count < 1 {
        return Err(Refusal::Layout);
    }
    if count > answers::limits::MAX_VECTORS as u64 {
        return Err(Refusal::Layout);
    }
    let n = count as usize;
    if n <= 64 {
        let mut short = [0u64; 64];
        return read_through(s, n, ids, &mut short);
    }
    let mut most = [0u64; answers::limits::MAX_VECTORS];
    read_through(s, n, ids, &mut most)
}
