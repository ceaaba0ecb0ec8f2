// A segment's payload by the segment's id: a part of the lent file itself, not a copy.
ghost use Rattle.std.specs.Prelude.{◌≡◌, IfOk, length};
ghost use Rattle.answers.specs.Answer.{number, numbered, refused_by};
ghost use Rattle.reading.specs.Answers.{part_in};
ghost use Rattle.reading.specs.PartLaws.{Hands};
ghost use Rattle.reading.specs.Part.{place_of, place_answer, HandsPart};

use answers::Refusal;
use reading::PayloadPlace;

// The part of the file at a place, by its bytes and by where it lies; nothing of the file where there is none.
pub fn part_at(file: &[u8], place: Result<PayloadPlace, Refusal>) -> &[u8]
    ensures { Hands result file.entry (numbered place) }
{
    match place {
        Ok(PayloadPlace { start, length }) => {
            if start > file.len() {
                return &file[..0];
            }
            if length > file.len() - start {
                return &file[..0];
            }
            let end = start + length;
            &file[start..end]
        }
        Err(_) => &file[..0],
    }
}

// The payload of the segment with an id: 1, 2, 3, 15, 4, else that part of the lent file itself.
pub fn payload<'a>(file: &'a [u8], id: u64) -> Result<&'a [u8], Refusal>
    ensures number { refused_by result ≡ number (place_answer (place_of (part_in file.now id))) }
    ensures part { IfOk result (λ part. HandsPart part file.entry (part_in file.now id)) }
{
    let place = crate::place::payload_place(file, id)?;
    Ok(part_at(file, Ok(place)))
}
