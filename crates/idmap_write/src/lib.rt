// The id-map writer: 14 for input that breaks a rule, then 9 for a buffer without room; else the map, and its length.
#![tactic(auto)]

pub mod encode;
pub mod refusal;

ghost use Rattle.std.specs.Prelude.{◌≡◌, ◌+◌, ◌*◌, ◌≤◌, ◌<◌, IfOk, length};
ghost use Rattle.octets.specs.Over.{over};
ghost use Rattle.answers.specs.Answer.{numbered, refused_by};
ghost use Rattle.answers.specs.Write.{write_answer, write_buffer};
ghost use Rattle.idmap.specs.Encode.{interval_of, map_bytes, map_bad};

use answers::Refusal;

// The interval that is written for the one asked.
fn interval_of(interval: u64) -> u64
    ensures { result ≡ interval_of interval }
{
    if interval == 0 {
        return answers::limits::DEFAULT_INTERVAL;
    }
    interval
}

// A map that may be written: ids that rise, with an encoding and an interval that go together.
#[derive(Clone, Copy)]
pub struct Map<'a> {
    pub ids: &'a [u64],
    pub encoding: u64,
    pub interval: u64,
    ghost held: { map_bad ids.now encoding interval ≡ 0 },
}

impl<'a> Map<'a> {
    // The map of some ids; 14 where the input breaks a rule.
    pub fn of(ids: &'a [u64], encoding: u64, interval: u64) -> Result<Map<'a>, Refusal>
        ensures answer { refused_by result ≡ map_bad ids.now encoding interval }
        ensures fields { IfOk result (λ map. (map.ids.now ≡ ids.now)
            × ((map.encoding ≡ encoding) × (map.interval ≡ interval))) }
    {
        crate::refusal::check(ids, encoding, interval)?;
        Ok(Map {
            ids,
            encoding,
            interval,
        })
    }

    // How many bytes it takes.
    pub fn size(&self) -> usize
        ensures size { result ≡ length (map_bytes self.now.ids.now self.now.encoding self.now.interval) }
        ensures bound { result ≤ 1048576 }
    {
        if self.encoding == 0 {
            return 7 + 8 * self.ids.len();
        }
        let r = interval_of(self.interval) as usize;
        let start = 7 + 4 * self.ids.len().div_ceil(r);
        start + crate::encode::deltas_len(self.ids, r)
    }

    // Its bytes at the front of a buffer that has room for them.
    pub fn put(&self, buf: &mut [u8])
        requires { length (map_bytes self.now.ids.now self.now.encoding self.now.interval) ≤ length buf.old }
        ensures { buf.new ≡ over buf.old 0
            (map_bytes self.now.ids.now self.now.encoding self.now.interval) }
    {
        let ids = self.ids;
        if self.encoding == 0 {
            crate::encode::put_head(buf, 0, 0, ids.len() as u64);
            crate::encode::put_raw(buf, ids);
            return;
        }
        let r = interval_of(self.interval) as usize;
        let start = 7 + 4 * ids.len().div_ceil(r);
        crate::encode::put_head(buf, 1, r as u64, ids.len() as u64);
        crate::encode::put_deltas(buf, ids, r, start);
    }
}

// The map of ids at the front of a buffer, and its length.
pub fn write(buf: &mut [u8], ids: &[u64], encoding: u64, interval: u64) -> Result<usize, Refusal>
    ensures answer { numbered result ≡ write_answer (map_bad ids.now encoding interval)
        (map_bytes ids.now encoding interval) buf.old }
    ensures buf { buf.new ≡ write_buffer (map_bad ids.now encoding interval)
        (map_bytes ids.now encoding interval) buf.old }
{
    let map = Map::of(ids, encoding, interval)?;
    let n = map.size();
    if buf.len() < n {
        return Err(Refusal::NoRoom);
    }
    map.put(buf);
    Ok(n)
}
