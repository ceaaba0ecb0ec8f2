// An id map taken apart: how long it is, and its ids into a list that has room for them. Every rule that a map breaks
// is 5.
ghost use Rattle.std.specs.Prelude.{◌≡◌, ◌+◌, ◌≤◌, ◌<◌, length};
ghost use Rattle.answers.specs.Answer.{numbered};
ghost use Rattle.idmap.specs.Decode.{raw_map, map_of, map_answer};
ghost use Rattle.idmap.specs.DecodeLaws.{Filled};
ghost use Rattle.answers.specs.limits.Limits.{max_vectors};

use answers::Refusal;

// The ids of a raw map, whose head is read already. Four a turn: a loop of one id is so short that its speed hangs on
// where it is placed.
fn decode_raw(s: &[u8], count: usize, ids: &mut [u64]) -> Result<usize, Refusal>
    requires { (count ≤ max_vectors) × (count ≤ length ids.old) }
    ensures answer { numbered result ≡ map_answer (raw_map count s.now) }
    ensures ids { Filled (raw_map count s.now) ids.new }
{
    let end = 7 + 8 * count;
    if s.len() < end {
        return Err(Refusal::Layout);
    }
    let mut prev: Option<u64> = None;
    let turns = count / 4;
    for t in 0..turns {
        for k in 0..4usize {
            let i = 4 * t + k;
            let id = octets::le::u64_at(s, 7 + 8 * i);
            if !octets::numbers::follows(prev, id) {
                return Err(Refusal::Layout);
            }
            ids[i] = id;
            prev = Some(id);
        }
    }
    for i in 4 * turns..count {
        let x = octets::le::u64_at(s, 7 + 8 * i);
        if !octets::numbers::follows(prev, x) {
            return Err(Refusal::Layout);
        }
        ids[i] = x;
        prev = Some(x);
    }
    Ok(end)
}

// A map of count ids: its length, and the ids at the front of a list that has room for them.
pub fn decode(s: &[u8], count: usize, ids: &mut [u64]) -> Result<usize, Refusal>
    requires { (1 ≤ count) × ((count ≤ max_vectors) × (count ≤ length ids.old)) }
    ensures answer { numbered result ≡ map_answer (map_of count s.now) }
    ensures ids { Filled (map_of count s.now) ids.new }
{
    if s.len() < 7 {
        return Err(Refusal::Layout);
    }
    if octets::le::u32_at(s, 3) as usize != count {
        return Err(Refusal::Layout);
    }
    let r = octets::le::u16_at(s, 1) as usize;
    if s[0] == 0 {
        if r != 0 {
            return Err(Refusal::Layout);
        }
        return decode_raw(s, count, ids);
    }
    if s[0] == 1 {
        if r == 0 {
            return Err(Refusal::Layout);
        }
        return crate::delta::decode_delta(s, count, r, ids);
    }
    Err(Refusal::Layout)
}
