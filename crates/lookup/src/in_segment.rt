// A vector id looked for in one segment. The payload is searched first, which gives its checksum too, and the header's
// hash is compared with that: the bytes are read once. The answers are those of the other order, the hash before the
// search. Whether the link is whole does not hang on what the search finds, and each answer of the search is given only
// behind the test for a whole link, so that 4 comes before every other number and before every place. A payload that
// the search refuses is not walked to its end, and has no checksum yet: there the hash is taken by a pass of its own.
ghost use Rattle.std.specs.Prelude.{◌≡◌, ◌+◌, ◌≤◌, length};
ghost use Rattle.answers.specs.Answer.{numbered};
ghost use Rattle.lookup.specs.in_segment.Located.{segment_hit_at};
ghost use Rattle.segment.specs.Header.{length_at};
ghost use Rattle.answers.specs.limits.Limits.{max_vectors};

use answers::Refusal;
use vec_read::walk::Place;

// Where a vector stands: where its segment's payload begins in the file and how long it is, and its place there.
#[derive(Clone, Copy)]
pub struct Located {
    pub body: usize,
    pub length: usize,
    pub place: Place,
}

// One segment, whose header begins at p, with a list of our own for the ids of a block: 4 where the hash differs,
// then the payload's check; nothing where the payload does not hold the id.
pub fn find(file: &[u8], p: usize, id: u64, scratch: &mut [u64]) -> Result<Option<Located>, Refusal>
    requires { (p + (64 + length_at file.now p) ≤ length file.now) × (max_vectors ≤ length scratch.old) }
    ensures { numbered result ≡ segment_hit_at file.now p (length_at file.now p) id }
{
    let length = octets::le::u64_at(file, p + segment::fields::LENGTH) as usize;
    let body = p + 64;
    let end = body + length;
    match vec_read::walk::search(&file[body..end], id, scratch) {
        Err(refusal) => {
            if !segment::is_whole(file, p, length) {
                return Err(Refusal::ContentHash);
            }
            Err(refusal)
        }
        Ok(searched) => {
            if !segment::is_whole_by(file, p, length, searched.sum) {
                return Err(Refusal::ContentHash);
            }
            match searched.place {
                None => Ok(None),
                Some(place) => Ok(Some(Located {
                    body,
                    length,
                    place,
                })),
            }
        }
    }
}
