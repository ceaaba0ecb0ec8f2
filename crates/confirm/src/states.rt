// The states of a manifest's entries: which an entry may have, and as they stand in a payload.
ghost use Rattle.std.specs.Prelude.{◌≡◌, ◌+◌, ◌*◌, ◌≤◌, length, drop};
ghost use Rattle.octets.specs.Over.{over};
ghost use Rattle.manifest.specs.Payload.{states_in, entries_end};
ghost use Rattle.confirm.specs.states.At.{state_of};

// Whether an entry may have a state: 0 live, 1 retired, and a manifest is never retired.
// Kept: a state is any byte here. It is judged before it is believed, and then copied as it stands (no plainer).
pub fn state_held(kind: u8, state: u8) -> bool
    ensures { result ≡ state_of kind state }
{
    if kind == manifest::fields::KIND {
        state == 0
    } else {
        state <= 1
    }
}

// The states that a payload of n entries says: byte 41 of each entry.
pub fn read_states(states: &mut [u8], payload: &[u8], n: usize)
    requires { (n ≤ length states.old) × (entries_end n ≤ length payload.now) }
    ensures { states.new ≡ over states.old 0 (states_in n (drop 8 payload.now)) }
{
    for (i, state) in states[..n].iter_mut().enumerate() {
        *state = payload[manifest::fields::RECORD_HEAD
            + manifest::fields::ENTRY_SIZE * i
            + manifest::fields::STATE];
    }
}
