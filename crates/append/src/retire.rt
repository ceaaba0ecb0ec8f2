// The ids to retire, marked in the states of the directory's entries: the entries' ids, types and states are three
// lists of the caller.
ghost use Rattle.std.specs.Prelude.{◌≡◌, OnOk, length};
ghost use Rattle.answers.specs.Answer.{refused_by};
ghost use Rattle.append.specs.retire.Marks.{retire_held_by, retire_number, retired_by, Rises};

use answers::Refusal;

// Marks the entries whose ids are in the list as retired, in the list's order. 11 where an id is not there, is of
// type 0x05, is retired already, or stands in the list twice; the states are then not to be used. Each id marks an
// entry that was live, so the loop ends after as many turns as there are entries, however long the list is.
pub fn mark(entry_ids: &[u64], kinds: &[u8], states: &mut [u8], ids: &[u64]) -> Result<(), Refusal>
    requires kinds_len { (length kinds.now ≡ length entry_ids.now) × (length states.old ≡ length entry_ids.now) }
    requires rises { Rises 0 entry_ids.now }
    ensures answer { refused_by result ≡ retire_number (retire_held_by entry_ids.now kinds.now states.old
        ids.now) }
    ensures states { OnOk result (states.new ≡ retired_by entry_ids.now states.old
        ids.now) }
{
    for id in ids {
        let Some(i) = octets::numbers::index_of(entry_ids, *id) else {
            return Err(Refusal::Retire);
        };
        if kinds[i] == manifest::fields::KIND {
            return Err(Refusal::Retire);
        }
        if states[i] != 0 {
            return Err(Refusal::Retire);
        }
        states[i] = 1;
    }
    Ok(())
}
