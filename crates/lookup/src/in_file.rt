// The search for a vector id in a file: through the live VEC segments from the last in the directory to the first,
// each checked whole before it is looked into. The first bad one refuses, the first that holds the id answers.
ghost use Rattle.std.specs.Prelude.{◌≡◌, ◌≤◌, length};
ghost use Rattle.answers.specs.Answer.{numbered};
ghost use Rattle.reading.specs.Answers.{hit_in};
ghost use Rattle.lookup.specs.in_segment.Located.{located_of};
ghost use Rattle.answers.specs.limits.Limits.{max_vectors};

use crate::in_segment::Located;
use answers::Refusal;
use opening::directory::Directory;

// The search in a directory, down from its last entry.
fn find_down(
    directory: &Directory,
    id: u64,
    scratch: &mut [u64],
) -> Result<Option<Located>, Refusal>
    requires { max_vectors ≤ length scratch.old }
    ensures { numbered result ≡ located_of (hit_in directory.now.file.now id) }
{
    for i in (0..directory.manifest.count).rev() {
        let p = directory.place(i);
        if directory.file[p + segment::fields::KIND] != vecseg::KIND {
            continue;
        }
        if directory.state(i) != 0 {
            continue;
        }
        let found = crate::in_segment::find(directory.file, p, id, scratch)?;
        if found.is_some() {
            return Ok(found);
        }
    }
    Ok(None)
}

// Where a file's vector with an id stands; 1 and 2 as opening has them.
pub fn find(file: &[u8], id: u64) -> Result<Option<Located>, Refusal>
    ensures { numbered result ≡ located_of (hit_in file.now id) }
{
    let mut offsets = [0u64; segment::index::MOST];
    let directory = opening::directory::directory_of(file, &mut offsets)?;
    let mut scratch = [0u64; answers::limits::MAX_VECTORS];
    find_down(&directory, id, &mut scratch)
}
