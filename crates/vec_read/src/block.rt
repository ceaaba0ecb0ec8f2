// A block of a payload checked: its columns, its id map and its checksum.
ghost use Rattle.std.specs.Prelude.{◌≡◌, ◌+◌, ◌*◌, ◌≤◌, ◌^◌, length};
ghost use Rattle.answers.specs.Answer.{numbered};
ghost use Rattle.vecseg.specs.Payload.{filled};
ghost use Rattle.vec_read.specs.block.Block.{BlockSays, line_with};
ghost use Rattle.answers.specs.limits.Limits.{max_dim, max_vectors};

use answers::Refusal;

// Whether zeros fill a list from a place to the next multiple of 64.
pub fn is_filled(s: &[u8], at: usize) -> bool
    requires { at + 64 ≤ 2 ^ 64 }
    ensures { result ≡ filled at s.now }
{
    let end = octets::round_up(at);
    if s.len() < end {
        return false;
    }
    octets::is_zero(&s[at..end])
}

// The block at the front of what is left of a payload: where its columns and its id map end, behind which its checksum
// stands. Its ids are left in a list of our own, where a search finds them.
pub fn check_block(
    s: &[u8],
    count: usize,
    dim: usize,
    dtype: u8,
    scratch: &mut [u64],
) -> Result<usize, Refusal>
    requires { (1 ≤ count) × ((count ≤ max_vectors) × ((count ≤ length scratch.old) × (dim ≤ max_dim))) }
    ensures { BlockSays (line_with count dim dtype) s.now scratch.new (numbered result) }
{
    let columns = count * dim * crate::width::width_of(dtype as u64);
    if s.len() < columns {
        return Err(Refusal::Layout);
    }
    let end = columns + idmap_read::decode::decode(&s[columns..], count, scratch)?;
    if s.len() - end < 4 {
        return Err(Refusal::Layout);
    }
    if octets::le::u32_at(s, end) != crc32c::checksum(&s[..end]) {
        return Err(Refusal::BlockChecksum);
    }
    if !is_filled(s, end + 4) {
        return Err(Refusal::Layout);
    }
    Ok(end)
}
