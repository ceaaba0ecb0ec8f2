// Which segments of a directory are copied: the live ones but manifests, if each is whole.
ghost use Rattle.std.specs.Prelude.{◌≡◌, ◌≤◌, length, take};
ghost use Rattle.answers.specs.Answer.{numbered};
ghost use Rattle.segment.specs.index.Offsets.{most};
ghost use Rattle.segment.specs.Chained.{offsets_of};
ghost use Rattle.manifest.specs.Opening.{opened};
ghost use Rattle.opening.specs.Indexed.{ManifestAt, Indexed};
ghost use Rattle.compacting.specs.Compact.{damaged};
ghost use Rattle.compact.specs.select.Selected.{copied_of, selected_of};

use answers::Refusal;

// How many segments are copied, and how many bytes they take.
#[derive(Clone, Copy)]
pub struct Selected {
    pub count: usize,
    pub end: usize,
}

// The segments to be copied, of the directory of the manifest at an offset; 4 where one is not whole. Their offsets are moved
// to the front of the list: an entry's place in it is read before anything is put there, since no more are selected than are
// passed.
pub fn select(
    file: &[u8],
    offsets: &mut [u64],
    manifest: usize,
    count: usize,
) -> Result<Selected, Refusal>
    requires most_in_bounds { most ≤ length offsets.old }
    requires indexed { Indexed file.now offsets.old }
    requires manifest_at { ManifestAt file.now manifest count }
    ensures answer { numbered result ≡ selected_of (copied_of (opened file.now)) }
    ensures offsets { damaged (copied_of (opened file.now)) ≡ 0
        → take (length (copied_of (opened file.now))) offsets.new
        ≡ offsets_of (copied_of (opened file.now)) }
{
    let mut n: usize = 0;
    let mut end: usize = 0;
    for i in 0..count {
        let p = offsets[i] as usize;
        if file[manifest
            + manifest::fields::ENTRIES
            + manifest::fields::ENTRY_SIZE * i
            + manifest::fields::STATE]
            != 0
        {
            continue;
        }
        if file[p + segment::fields::KIND] == manifest::fields::KIND {
            continue;
        }
        let length = octets::le::u64_at(file, p + segment::fields::LENGTH) as usize;
        if !segment::is_whole(file, p, length) {
            return Err(Refusal::ContentHash);
        }
        offsets[n] = p as u64;
        n += 1;
        end += 64 + octets::round_up(length);
    }
    Ok(Selected { count: n, end })
}
