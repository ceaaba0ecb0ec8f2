// A link of the file read at a place: a sound header, with its payload and its padding inside the file.
ghost use Rattle.std.specs.Prelude.{◌≡◌, ◌+◌, length};
ghost use Rattle.segment.specs.Step.{step_at};

use crate::Step;

// The link that stands at a place, where the link before has the id prev, or none is before. A length is compared
// before it is added to.
pub fn link_at(file: &[u8], at: usize, prev: Option<u64>) -> Option<Step>
    ensures { result ≡ step_at file.now at prev }
{
    let left = file.len().checked_sub(at)?;
    let room = left.checked_sub(crate::fields::HEADER_SIZE)?;
    let body = at + 64;
    let head = &file[at..body];
    let declared = octets::le::u64_at(head, crate::fields::LENGTH);
    if declared > room as u64 {
        return None;
    }
    let length = declared as usize;
    let padded = octets::round_up(length);
    if room < padded || !crate::header::header_sound(head, prev) {
        return None;
    }
    let padding = body + length;
    let end = body + padded;
    if !octets::is_zero(&file[padding..end]) {
        return None;
    }
    Some(Step {
        end,
        id: octets::le::u64_at(head, crate::fields::ID),
        length,
        kind: head[crate::fields::KIND],
        flags: octets::le::u16_at(head, crate::fields::FLAGS),
    })
}
