// Whether a link is a confirmed manifest. Its payload is written anew from the headers of the links before it, with
// the states that it says, and compared. Cheap tests come first: a file with many links of type 0x05 costs a test of
// the length for most of them. The content hash comes last: where the payload is the one that was written, the checksum
// that its root holds is right, and the hash asks for no pass over the root.
#![tactic(auto)]

pub mod entries;
pub mod payload;
pub mod states;

ghost use Rattle.std.specs.Prelude.{◌≡◌, ◌+◌, ◌*◌, ◌≤◌, length};
ghost use Rattle.manifest.specs.Payload.{payload_length};
ghost use Rattle.manifest.specs.At.{Inside};
ghost use Rattle.confirm.specs.states.At.{states_held_at, confirmed_at};
ghost use Rattle.answers.specs.limits.Limits.{max_entries};

// Whether each of the links at some offsets may have its state.
fn states_held(file: &[u8], offsets: &[u64], states: &[u8]) -> bool
    requires states_len { length states.now ≡ length offsets.now }
    requires inside { Inside file.now offsets.now }
    ensures { result ≡ states_held_at file.now offsets.now states.now }
{
    for (offset, state) in offsets.iter().zip(states) {
        let kind = file[*offset as usize + segment::fields::KIND];
        if !crate::states::state_held(kind, *state) {
            return false;
        }
    }
    true
}

// The test of a link of type 0x05 whose payload has the length that it must have, with room for the states and the
// payload written anew.
fn confirm_with(
    file: &[u8],
    offsets: &[u64],
    at: usize,
    len: usize,
    id: u64,
    states: &mut [u8],
    buf: &mut [u8],
) -> bool
    requires len_in_bounds { (at + (64 + len) ≤ length file.now) × (len ≡ payload_length (length offsets.now)) }
    requires offsets_len_bound { (length offsets.now ≤ max_entries) × (length offsets.now ≤ length states.old) }
    requires len_in_bounds_2 { len ≤ length buf.old }
    requires inside { Inside file.now offsets.now }
    ensures { result ≡ confirmed_at file.now offsets.now at len 5 id }
{
    let n = offsets.len();
    let body = at + 64;
    let end = body + len;
    crate::states::read_states(states, &file[body..end], n);
    if !states_held(file, offsets, &states[..n]) {
        return false;
    }
    crate::payload::put_payload(buf, file, offsets, &states[..n], at as u64, id);
    if !octets::same(&file[body..end], &buf[..len]) {
        return false;
    }
    let sum = crate::payload::payload_sum(&file[body..end]);
    segment::is_whole_by(file, at, len, sum)
}

// Whether the link at a place is confirmed, where the links before it stand at these offsets, and its header says this
// length, type and id.
pub fn is_confirmed(file: &[u8], offsets: &[u64], at: usize, len: usize, kind: u8, id: u64) -> bool
    requires len_in_bounds { at + (64 + len) ≤ length file.now }
    requires inside { Inside file.now offsets.now }
    ensures { result ≡ confirmed_at file.now offsets.now at len kind id }
{
    if kind != manifest::fields::KIND || offsets.len() > answers::limits::MAX_ENTRIES {
        return false;
    }
    let long = manifest::fields::RECORD_HEAD + manifest::fields::ENTRY_SIZE * offsets.len();
    if len != octets::round_up(long) + manifest::fields::ROOT_SIZE {
        return false;
    }
    let mut states = [0u8; answers::limits::MAX_ENTRIES];
    let mut buf = [0u8; manifest::fields::MAX_PAYLOAD];
    confirm_with(file, offsets, at, len, id, &mut states, &mut buf)
}
