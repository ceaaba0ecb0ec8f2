// Little-endian numbers in a slice of bytes. One loop reads and one writes a number of any width up to eight bytes;
// the widths cite them.
ghost use Rattle.std.specs.Prelude.{◌≡◌, ◌+◌, ◌≤◌, ◌<◌, ◌^◌, length};
ghost use Rattle.octets.specs.Over.{over};
ghost use Rattle.octets.specs.le.Le.{le_at, le_bytes};

// The number of k bytes at a place.
pub fn number_at(s: &[u8], at: usize, k: usize) -> u64
    requires { (at + k ≤ length s.now) × (k ≤ 8) }
    ensures { (result ≡ le_at k s.now at) × (result < 256 ^ k) }
{
    let mut r: u64 = 0;
    for b in s[at..at + k].iter().rev() {
        r = r * 256 + u64::from(*b);
    }
    r
}

// The numbers of two, four and eight bytes at a place.
pub fn u16_at(s: &[u8], at: usize) -> u16
    requires { at + 2 ≤ length s.now }
    ensures { result ≡ le_at 2 s.now at }
{
    number_at(s, at, 2) as u16
}

pub fn u32_at(s: &[u8], at: usize) -> u32
    requires { at + 4 ≤ length s.now }
    ensures { result ≡ le_at 4 s.now at }
{
    number_at(s, at, 4) as u32
}

pub fn u64_at(s: &[u8], at: usize) -> u64
    requires { at + 8 ≤ length s.now }
    ensures { result ≡ le_at 8 s.now at }
{
    number_at(s, at, 8)
}

// The k lowest bytes of x, written at a place.
pub fn put(s: &mut [u8], at: usize, k: usize, x: u64)
    requires { at + k ≤ length s.old }
    ensures { s.new ≡ over s.old at (le_bytes k x) }
{
    let mut rest = x;
    for b in s[at..at + k].iter_mut() {
        *b = (rest % 256) as u8;
        rest /= 256;
    }
}
