// A payload's block directory checked: its lines, which have count, dim and dtype of each block, and the fill behind.
ghost use Rattle.std.specs.Prelude.{◌≡◌, ◌+◌, ◌*◌, ◌≤◌, length, drop};
ghost use Rattle.answers.specs.Answer.{refused_by};
ghost use Rattle.vecseg.specs.Payload.{line_of, line_bad, lines_bad};
ghost use Rattle.vec_read.specs.lines.Directory.{DirectoryGood, DirectoryRead};
ghost use Rattle.vec_read.specs.lines.Counts.{CountsFit};

use answers::Refusal;

// One line of the directory: counts and dim 5, dtype 6.
fn check_line(s: &[u8], at: usize) -> Result<(), Refusal>
    requires { at + 12 ≤ length s.now }
    ensures { refused_by result ≡ line_bad (line_of (drop at s.now)) }
{
    let count = octets::le::u32_at(s, at + 4) as usize;
    if count < 1 {
        return Err(Refusal::Layout);
    }
    if count > answers::limits::MAX_VECTORS {
        return Err(Refusal::Layout);
    }
    let dim = octets::le::u16_at(s, at + 8) as usize;
    if dim < 1 {
        return Err(Refusal::Layout);
    }
    if dim > answers::limits::MAX_DIM {
        return Err(Refusal::Layout);
    }
    if crate::width::width_of(s[at + 10] as u64) == 0 {
        return Err(Refusal::Dtype);
    }
    Ok(())
}

// The lines of the directory, one by one.
fn check_lines(s: &[u8], blocks: usize) -> Result<(), Refusal>
    requires { 4 + 12 * blocks ≤ length s.now }
    ensures { refused_by result ≡ lines_bad blocks (drop 4 s.now) }
{
    for i in 0..blocks {
        check_line(s, 4 + 12 * i)?;
    }
    Ok(())
}

// The directory: block count and room for its lines 5, the lines, the fill behind them 5.
pub fn check_directory(s: &[u8]) -> Result<(), Refusal>
    ensures { DirectoryRead s.now (refused_by result) }
{
    if s.len() < 4 {
        return Err(Refusal::Layout);
    }
    let blocks = octets::le::u32_at(s, 0) as usize;
    if blocks > answers::limits::MAX_BLOCKS {
        return Err(Refusal::Layout);
    }
    let end = 4 + 12 * blocks;
    if s.len() < end {
        return Err(Refusal::Layout);
    }
    check_lines(s, blocks)?;
    if !crate::block::is_filled(s, end) {
        return Err(Refusal::Layout);
    }
    Ok(())
}

// The largest count among the lines of a good directory: a list so long takes the ids of each block.
pub fn largest_count(s: &[u8]) -> usize
    requires { DirectoryGood s.now }
    ensures { CountsFit s.now result }
{
    let blocks = octets::le::u32_at(s, 0) as usize;
    let mut largest: usize = 0;
    for i in 0..blocks {
        largest = largest.max(octets::le::u32_at(s, 4 + 12 * i + 4) as usize);
    }
    largest
}
