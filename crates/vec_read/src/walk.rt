// One walk over a VEC_SEG payload's blocks that checks them. On its way it joins the payload's checksum from those of
// the blocks, and looks for a vector id among the ids that the check has just read, where it is asked to.
ghost use Rattle.std.specs.Prelude.{◌≡◌, ◌≤◌, length};
ghost use Rattle.octets.specs.Options.{option_of};
ghost use Rattle.answers.specs.Answer.{numbered};
ghost use Rattle.answers.specs.limits.Limits.{max_vectors};
ghost use Rattle.vec_read.specs.lines.Directory.{DirectoryGood};
ghost use Rattle.vec_read.specs.lines.Counts.{CountsFit};
ghost use Rattle.vec_read.specs.walk.Walk.{summed_of, searched_of, sum_of, asked_of, walked_of};
ghost use Rattle.vec_read.specs.walk.Sum.{SumTo, Holds};

use answers::Refusal;

// Where a vector stands: its block's offset, count, dim and dtype, and which vector of the block it is.
#[derive(Clone, Copy)]
pub struct Place {
    pub offset: usize,
    pub count: usize,
    pub dim: usize,
    pub dtype: u8,
    pub index: usize,
}

// What a search that checks the payload on its way finds: the payload's checksum, and the vector's place where a block
// holds it.
#[derive(Clone, Copy)]
pub struct Searched {
    pub sum: u32,
    pub place: Option<Place>,
}

// The checksum of all that stands before a place.
#[derive(Clone, Copy)]
pub struct Sum {
    value: u32,
    to: usize,
}

// From how many bytes on a block's checksum is joined. Shorter blocks are left to a later pass, which takes them in
// with what stands around them, and is quicker than joining each.
const JOINED: usize = 2048;

// The checksum behind a sound block, of the one before it. What stands in the block from at to end has the checksum
// that the block holds at end, so these bytes are not looked at again.
fn sum_on(summed: bool, sum: Sum, s: &[u8], at: usize, end: usize) -> Sum
    requires { (SumTo summed s.now sum.value sum.to at) × (Holds s.now at end) }
    ensures { SumTo summed s.now result.value result.to end }
{
    if !summed {
        return sum;
    }
    if end - at < JOINED {
        return sum;
    }
    let from = sum.to;
    let before = crc32c::extend(sum.value, &s[from..at]);
    let known = octets::le::u32_at(s, end);
    Sum {
        value: crc_join::extend_by(before, &s[at..end], known),
        to: end,
    }
}

// The checksum of the whole; 0 where none is asked for.
fn sum_all(summed: bool, sum: Sum, s: &[u8]) -> u32
    requires { SumTo summed s.now sum.value sum.to (length s.now) }
    ensures { result ≡ sum_of summed s.now }
{
    if !summed {
        return 0;
    }
    let from = sum.to;
    crc32c::extend(sum.value, &s[from..])
}

// Where the id stands among those of a block; nowhere where none is looked for.
fn look(ids: &[u64], id: Option<u64>) -> Option<usize>
    ensures { result ≡ option_of (asked_of id ids.now) }
{
    match id {
        None => None,
        Some(x) => octets::numbers::index_of(ids, x),
    }
}

// The blocks of a payload whose directory is good; each is handed over as the part of the payload from its place. Ids
// may repeat, and the last copy counts. A place is written only where the id is found: written anew behind each block,
// it takes as long as all else that this loop does itself.
fn walk_blocks(
    s: &[u8],
    id: Option<u64>,
    summed: bool,
    scratch: &mut [u64],
) -> Result<Searched, Refusal>
    requires { (DirectoryGood s.now) × (CountsFit s.now (length scratch.old)) }
    ensures { numbered result ≡ walked_of summed s.now id }
{
    let blocks = octets::le::u32_at(s, 0) as usize;
    let mut sum = Sum { value: 0, to: 0 };
    let mut kept: Option<Place> = None;
    let mut at = octets::round_up(4 + 12 * blocks);
    for i in 0..blocks {
        let line = 4 + 12 * i;
        if octets::le::u32_at(s, line) as usize != at {
            return Err(Refusal::Layout);
        }
        let count = octets::le::u32_at(s, line + 4) as usize;
        let dim = octets::le::u16_at(s, line + 8) as usize;
        let dtype = s[line + 10];
        let n = crate::block::check_block(&s[at..], count, dim, dtype, scratch)?;
        sum = sum_on(summed, sum, s, at, at + n);
        if let Some(index) = look(&scratch[..count], id) {
            kept = Some(Place {
                offset: at,
                count,
                dim,
                dtype,
                index,
            });
        }
        at += octets::round_up(n + 4);
    }
    if s.len() != at {
        return Err(Refusal::Layout);
    }
    Ok(Searched {
        sum: sum_all(summed, sum, s),
        place: kept,
    })
}

// How many ids the short list of our own takes. A list for the largest block that may be takes longer to clear than a
// small payload to check.
const FEW: usize = 256;

// The walk with a list of our own for N ids, of a payload whose blocks have no more.
fn walk_with<const N: usize>(s: &[u8], id: Option<u64>, summed: bool) -> Result<Searched, Refusal>
    requires { (N ≤ max_vectors) × ((DirectoryGood s.now) × (CountsFit s.now N)) }
    ensures { numbered result ≡ walked_of summed s.now id }
{
    let mut scratch = [0u64; N];
    walk_blocks(s, id, summed, &mut scratch)
}

// The walk with a list of our own, as short as the counts of the blocks allow.
pub fn walk(s: &[u8], id: Option<u64>, summed: bool) -> Result<Searched, Refusal>
    ensures { numbered result ≡ walked_of summed s.now id }
{
    crate::lines::check_directory(s)?;
    if crate::lines::largest_count(s) <= FEW {
        return walk_with::<FEW>(s, id, summed);
    }
    walk_with::<{ answers::limits::MAX_VECTORS }>(s, id, summed)
}

// The check that keeps the payload's checksum.
pub fn check_summed(s: &[u8]) -> Result<u32, Refusal>
    ensures { numbered result ≡ summed_of s.now }
{
    let searched = walk(s, None, true)?;
    Ok(searched.sum)
}

// The search, with the caller's list for the ids of a block.
pub fn search(s: &[u8], id: u64, scratch: &mut [u64]) -> Result<Searched, Refusal>
    requires { max_vectors ≤ length scratch.old }
    ensures { numbered result ≡ searched_of s.now id }
{
    crate::lines::check_directory(s)?;
    walk_blocks(s, Some(id), true, scratch)
}
