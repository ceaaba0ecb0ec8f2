// Where a segment's payload stands in a file, by the segment's id.
ghost use Rattle.std.specs.Prelude.{◌≡◌};
ghost use Rattle.answers.specs.Answer.{numbered};
ghost use Rattle.reading.specs.Answers.{part_in};
ghost use Rattle.reading.specs.Part.{place_of};

use answers::Refusal;
use opening::directory::Directory;
use reading::PayloadPlace;

// The live segment with an id in a directory: 3 where there is none, 15 where its type is reserved, 4 where the hash
// differs.
fn find_in(directory: &Directory, id: u64) -> Result<PayloadPlace, Refusal>
    ensures { numbered result ≡ place_of (part_in directory.now.file.now id) }
{
    let file = directory.file;
    for i in 0..directory.manifest.count {
        let p = directory.place(i);
        if octets::le::u64_at(file, p + segment::fields::ID) != id {
            continue;
        }
        if directory.state(i) != 0 {
            continue;
        }
        if segment::kind_reserved(file[p + segment::fields::KIND]) {
            return Err(Refusal::ReservedType);
        }
        let length = octets::le::u64_at(file, p + segment::fields::LENGTH) as usize;
        if !segment::is_whole(file, p, length) {
            return Err(Refusal::ContentHash);
        }
        return Ok(PayloadPlace {
            start: p + 64,
            length,
        });
    }
    Err(Refusal::NotLive)
}

// Where the payload of the segment with an id lies: 1, 2, 3, 15, 4. A damaged layout inside doesn't stop it.
pub fn payload_place(file: &[u8], id: u64) -> Result<PayloadPlace, Refusal>
    ensures { numbered result ≡ place_of (part_in file.now id) }
{
    let mut offsets = [0u64; segment::index::MOST];
    let directory = opening::directory::directory_of(file, &mut offsets)?;
    find_in(&directory, id)
}
