// The ids of a delta map, whose head is read already: restart offsets, and a varint for each id.
ghost use Rattle.std.specs.Prelude.{◌≡◌, ◌+◌, ◌-◌, ◌*◌, ◌≤◌, ◌<◌, length, drop};
ghost use Rattle.answers.specs.Answer.{numbered};
ghost use Rattle.idmap.specs.Encode.{left_after};
ghost use Rattle.idmap.specs.Decode.{delta_map, map_answer};
ghost use Rattle.idmap.specs.DecodeLaws.{low_of, Filled};
ghost use Rattle.idmap_read.specs.delta.Next.{next_of, id_at};
ghost use Rattle.answers.specs.limits.Limits.{max_vectors};

use answers::Refusal;

// The id that a varint gives, behind the id prev: the first of a group stands where its restart offset says and is
// absolute, the others are differences.
fn next_id(
    s: &[u8],
    left: usize,
    prev: Option<u64>,
    at: usize,
    offset: usize,
    value: u64,
) -> Result<u64, Refusal>
    requires { (left ≡ 0 → offset + 4 ≤ length s.now) × (prev ≡ None → left ≡ 0) }
    ensures { numbered result ≡ next_of left (low_of prev) at (drop offset s.now) value }
{
    if left == 0 {
        if octets::le::u32_at(s, offset) as usize != at {
            return Err(Refusal::Layout);
        }
        if !octets::numbers::follows(prev, value) {
            return Err(Refusal::Layout);
        }
        return Ok(value);
    }
    let before = prev.unwrap();
    if value == 0 {
        return Err(Refusal::Layout);
    }
    if value > u64::MAX - before {
        return Err(Refusal::Layout);
    }
    Ok(before + value)
}

// What stands at a place of a delta map: an id, and the length of its varint.
#[derive(Clone, Copy)]
pub struct IdAt {
    id: u64,
    length: usize,
}

// The id at a place, behind the id prev, where g groups have begun.
fn id_at(
    s: &[u8],
    left: usize,
    prev: Option<u64>,
    pos: usize,
    start: usize,
    g: usize,
) -> Result<IdAt, Refusal>
    requires { ((left ≡ 0 → 7 + 4 * g + 4 ≤ length s.now) × (prev ≡ None → left ≡ 0))
        × ((start ≤ pos) × (g ≤ max_vectors)) }
    ensures { numbered result ≡ id_at left (low_of prev) (pos - start) (drop (7 + 4 * g) s.now)
        (drop pos s.now) }
{
    let v = varint::read_at(s, pos)?;
    let id = next_id(s, left, prev, pos - start, 7 + 4 * g, v.value)?;
    Ok(IdAt {
        id,
        length: v.length,
    })
}

// How many ids of the group are left behind one.
pub fn left_after(r: usize, left: usize) -> usize
    requires { 0 < r }
    ensures { result ≡ left_after r left }
{
    if left == 0 { r - 1 } else { left - 1 }
}

// The ids of a delta map with restarts every r, whose head is read already. A group's first id is read by itself, so
// that the loop over its differences keeps what it needs in registers.
pub fn decode_delta(s: &[u8], count: usize, r: usize, ids: &mut [u64]) -> Result<usize, Refusal>
    requires { (count ≤ max_vectors) × ((count ≤ length ids.old) × ((0 < r) × (r < 65536))) }
    ensures answer { numbered result ≡ map_answer (delta_map r count s.now) }
    ensures ids { Filled (delta_map r count s.now) ids.new }
{
    let groups = count.div_ceil(r);
    let start = 7 + 4 * groups;
    if s.len() < start {
        return Err(Refusal::Layout);
    }
    let mut prev: Option<u64> = None;
    let mut pos = start;
    for g in 0..groups {
        let first = g * r;
        let x = id_at(s, 0, prev, pos, start, g)?;
        ids[first] = x.id;
        prev = Some(x.id);
        pos += x.length;
        let stop = count.min(first + r);
        for i in first + 1..stop {
            let x = id_at(s, stop - i, prev, pos, start, g + 1)?;
            ids[i] = x.id;
            prev = Some(x.id);
            pos += x.length;
        }
    }
    Ok(pos)
}
