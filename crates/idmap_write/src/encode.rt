// The parts of an id map as they are written: its head, raw ids, and varints with their restart offsets.
ghost use Rattle.std.specs.Prelude.{◌≡◌, true, ◌++◌, ◌+◌, ◌*◌, ◌≤◌, ◌<◌, length};
ghost use Rattle.octets.specs.Over.{over};
ghost use Rattle.varint.specs.Varint.{varint_of};
ghost use Rattle.idmap.specs.Encode.{map_head, raw_ids, delta_of, deltas, restart_of, restarts, rises_from};
ghost use Rattle.answers.specs.limits.Limits.{max_vectors};

// Encoding, restart interval and count at the front of a buffer.
pub fn put_head(buf: &mut [u8], encoding: u8, r: u64, count: u64)
    requires { 7 ≤ length buf.old }
    ensures { buf.new ≡ over buf.old 0 (map_head encoding r count) }
{
    buf[0] = encoding;
    octets::le::put(buf, 1, 2, r);
    octets::le::put(buf, 3, 4, count);
}

// Raw ids, right behind the head.
pub fn put_raw(buf: &mut [u8], ids: &[u64])
    requires { 7 + 8 * length ids.now ≤ length buf.old }
    ensures { buf.new ≡ over buf.old 7 (raw_ids ids.now) }
{
    for (i, &x) in ids.iter().enumerate() {
        octets::le::put(buf, 7 + 8 * i, 8, x);
    }
}

// What stands for an id: itself at the start of a group, else the difference from the id before.
fn delta(left: usize, prev: u64, x: u64) -> u64
    requires { (left ≡ 0 → ⊥) → prev ≤ x }
    ensures { result ≡ delta_of left prev x }
{
    if left == 0 {
        return x;
    }
    x - prev
}

// How many bytes stand for an id. Differences of one and of two bytes come in no order, so the choice between them is
// no branch.
fn delta_len(left: usize, prev: u64, x: u64) -> usize
    requires { (left ≡ 0 → ⊥) → prev ≤ x }
    ensures { (result ≡ length (varint_of (delta_of left prev x))) × (result ≤ 10) }
{
    if left == 0 {
        return varint::write::encoded_len(x);
    }
    let d = x - prev;
    if d >= 16384 {
        return varint::write::encoded_len(d);
    }
    if d < 128 { 1 } else { 2 }
}

// How many bytes the varints of rising ids take.
pub fn deltas_len(ids: &[u64], r: usize) -> usize
    requires { (length ids.now ≤ max_vectors) × ((0 < r) × (rises_from 0 ids.now ≡ true)) }
    ensures { (result ≡ length (deltas r 0 0 ids.now)) × (result ≤ 10 * length ids.now) }
{
    let mut left: usize = 0;
    let mut prev: u64 = 0;
    let mut total: usize = 0;
    for &x in ids {
        total += delta_len(left, prev, x);
        left = idmap_read::delta::left_after(r, left);
        prev = x;
    }
    total
}

// The restart offset of a group that begins, and the place behind it.
fn put_restart(buf: &mut [u8], place: usize, left: usize, at: usize) -> usize
    requires { place + length (restart_of left at) ≤ length buf.old }
    ensures answer { result ≡ place + length (restart_of left at) }
    ensures buf { buf.new ≡ over buf.old place (restart_of left at) }
{
    if left == 0 {
        octets::le::put(buf, place, 4, at as u64);
        return place + 4;
    }
    place
}

// Restart offsets right behind the head, and varints right behind those, from start on.
pub fn put_deltas(buf: &mut [u8], ids: &[u64], r: usize, start: usize)
    requires r_nonzero { (0 < r) × (rises_from 0 ids.now ≡ true) }
    requires start_value { start ≡ 7 + length (restarts r 0 0 0 ids.now) }
    requires ids_in_bounds { start + length (deltas r 0 0 ids.now) ≤ length buf.old }
    ensures { buf.new ≡ over buf.old 7
        (restarts r 0 0 0 ids.now ++ deltas r 0 0 ids.now) }
{
    let mut left: usize = 0;
    let mut prev: u64 = 0;
    let mut place: usize = 7;
    let mut pos = start;
    for &x in ids {
        let d = delta(left, prev, x);
        place = put_restart(buf, place, left, pos - start);
        left = idmap_read::delta::left_after(r, left);
        pos = varint::write::put(buf, pos, d);
        prev = x;
    }
}
