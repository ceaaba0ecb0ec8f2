// Text written into a buffer at a place; each function answers the place behind what it wrote.
// Kept: the buffer is the caller's, there is no heap. A struct that lends it would have each contract speak of a lent buffer
// within a lent struct, where `Written` says old, new, place and end (no plainer).
ghost use Rattle.std.specs.Prelude.{◌+◌, ◌≤◌, ◌++◌, length};
ghost use Rattle.octets.specs.text.Text.{decimal};
ghost use Rattle.octets.specs.text.Written.{Written};

// Bytes as they are.
pub fn put_bytes(buf: &mut [u8], at: usize, bytes: &[u8]) -> usize
    requires { at + length bytes.now ≤ length buf.old }
    ensures { Written buf.old buf.new at bytes.now result }
{
    crate::copy(&mut buf[at..], bytes);
    at + bytes.len()
}

// A number in decimal.
pub fn put_decimal(buf: &mut [u8], at: usize, n: u64) -> usize
    requires { at + length (decimal n) ≤ length buf.old }
    ensures { Written buf.old buf.new at (decimal n) result }
{
    if n < 10 {
        buf[at] = 48 + n as u8;
        return at + 1;
    }
    let last = put_decimal(buf, at, n / 10);
    buf[last] = 48 + (n % 10) as u8;
    last + 1
}

// A number between two words.
pub fn put_number(buf: &mut [u8], at: usize, before: &[u8], n: u64, behind: &[u8]) -> usize
    requires { at + length before.now + 20 + length behind.now ≤ length buf.old }
    ensures buf { Written buf.old buf.new at
        (before.now ++ (decimal n ++ behind.now)) result }
    ensures bound { result ≤ at + length before.now + 20 + length behind.now }
{
    let first = put_bytes(buf, at, before);
    let last = put_decimal(buf, first, n);
    put_bytes(buf, last, behind)
}
