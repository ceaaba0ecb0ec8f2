// Whether a list of ids, an encoding and an interval may be written.
ghost use Rattle.std.specs.Prelude.{◌≡◌, ◌<◌};
ghost use Rattle.answers.specs.Answer.{refused_by};
ghost use Rattle.idmap.specs.Encode.{interval_held, rises_from, map_bad};

use answers::Refusal;

// Whether ids rise strictly.
fn rising(ids: &[u64]) -> bool
    ensures { result ≡ rises_from 0 ids.now }
{
    let mut prev: Option<u64> = None;
    for &x in ids {
        if !octets::numbers::follows(prev, x) {
            return false;
        }
        prev = Some(x);
    }
    true
}

// Whether an encoding and its interval go together: raw has none, a delta map's fits its field.
fn interval_held(encoding: u64, interval: u64) -> bool
    ensures { result ≡ interval_held encoding interval }
{
    if encoding == 0 {
        return interval == 0;
    }
    if encoding == 1 {
        return interval < 65536;
    }
    false
}

// 14 where the input breaks a rule.
// Kept: an encoding is any number, since C may hand over any: `rvf_idmap_write` promises 14 for those that are none.
pub fn check(ids: &[u64], encoding: u64, interval: u64) -> Result<(), Refusal>
    ensures { refused_by result ≡ map_bad ids.now encoding interval }
{
    if ids.len() < 1 {
        return Err(Refusal::Input);
    }
    if ids.len() > answers::limits::MAX_VECTORS {
        return Err(Refusal::Input);
    }
    if !interval_held(encoding, interval) {
        return Err(Refusal::Input);
    }
    if !rising(ids) {
        return Err(Refusal::Input);
    }
    Ok(())
}
