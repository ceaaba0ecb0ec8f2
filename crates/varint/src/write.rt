// Unsigned LEB128 of a `u64` written in its shortest form, and how many bytes that takes.
ghost use Rattle.std.specs.Prelude.{◌≡◌, ◌+◌, ◌≤◌, ◌<◌, length};
ghost use Rattle.octets.specs.Over.{over};
ghost use Rattle.answers.specs.Answer.{numbered};
ghost use Rattle.answers.specs.Write.{write_answer, write_buffer};
ghost use Rattle.varint.specs.Varint.{varint_of};

use answers::Refusal;

// How many bytes a number takes.
pub fn encoded_len(x: u64) -> usize
    ensures { (result ≡ length (varint_of x)) × (result ≤ 10) }
{
    let mut d: usize = 0;
    let mut rest = x;
    while rest >= 128 {
        rest /= 128;
        d += 1;
    }
    d + 1
}

// A number's varint at a place that has room for it.
pub fn put(out: &mut [u8], at: usize, x: u64) -> usize
    requires { at + length (varint_of x) ≤ length out.old }
    ensures answer { result ≡ at + length (varint_of x) }
    ensures out { out.new ≡ over out.old at (varint_of x) }
{
    let mut d: usize = 0;
    let mut rest = x;
    while rest >= 128 {
        out[at + d] = (rest % 128 + 128) as u8;
        rest /= 128;
        d += 1;
    }
    out[at + d] = rest as u8;
    at + d + 1
}

// A number's varint at the front of a buffer, and its length; or 9, with the buffer as it was.
pub fn write(out: &mut [u8], x: u64) -> Result<usize, Refusal>
    ensures answer { numbered result ≡ write_answer 0 (varint_of x) out.old }
    ensures out { out.new ≡ write_buffer 0 (varint_of x) out.old }
{
    if out.len() < encoded_len(x) {
        return Err(Refusal::NoRoom);
    }
    Ok(put(out, 0, x))
}
