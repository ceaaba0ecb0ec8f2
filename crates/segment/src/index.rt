// Where the first links of a file's chain begin, so that a search from the end needs no walk of its own at each
// boundary.
ghost use Rattle.std.specs.Prelude.{◌≡◌, ◌≤◌, length, take};
ghost use Rattle.segment.specs.Chained.{chain, offsets_of};
ghost use Rattle.segment.specs.index.Offsets.{most};

// How many links can matter: a manifest has at most answers::limits::MAX_ENTRIES before it.
pub const MOST: usize = answers::limits::MAX_ENTRIES + 1;

// The offsets of the first links, at most MOST, at the front of a list; and how many they are.
pub fn collect(file: &[u8], offsets: &mut [u64]) -> usize
    requires { most ≤ length offsets.old }
    ensures answer { result ≡ length (take most (chain file.now)) }
    ensures offsets { take result offsets.new ≡ offsets_of (take most (chain file.now)) }
{
    let mut at: usize = 0;
    let mut prev = None;
    for (n, offset) in offsets[..MOST].iter_mut().enumerate() {
        let Some(step) = crate::link::link_at(file, at, prev) else {
            return n;
        };
        *offset = at as u64;
        at = step.end;
        prev = Some(step.id);
    }
    MOST
}
