// Slices of bytes: copied, cleared, tested for zero, compared; a byte as a number; and rounding to 64.
#![tactic(auto)]

pub mod le;
pub mod numbers;
pub mod text;

ghost use Rattle.std.specs.Prelude.{◌≡◌, ◌+◌, ◌-◌, ◌≤◌, ◌<◌, ◌^◌, length, replicate};
ghost use Rattle.octets.specs.Over.{over};
ghost use Rattle.octets.specs.Round.{round64};
ghost use Rattle.octets.specs.Zero.{all_zero, same_bytes};

// The next multiple of 64, n itself where it is one.
pub fn round_up(n: usize) -> usize
    requires { n + 64 ≤ 2 ^ 64 }
    ensures { result ≡ round64 n }
{
    (n + 63) / 64 * 64
}

// A byte as a number of 64 bits.
pub fn wide(b: u8) -> u64
    ensures { (result ≡ b) × (result < 256) }
{
    b as u64
}

// A list of bytes at the front of a buffer; the bytes behind it stay.
// Kept: byte by byte. `copy_from_slice` of a length that the compiler does not know calls `memmove`, which the archive
// would need from outside, and a vector of 1,024 components, each a copy of its own, takes 1.6 times as long.
pub fn copy(buf: &mut [u8], body: &[u8])
    requires { length body.now ≤ length buf.old }
    ensures { buf.new ≡ over buf.old 0 body.now }
{
    for (i, b) in body.iter().enumerate() {
        buf[i] = *b;
    }
}

// Zeros throughout a buffer.
pub fn clear(buf: &mut [u8])
    ensures { buf.new ≡ replicate (length buf.old) 0 }
{
    buf.fill(0);
}

// Zeros from a place to another.
pub fn clear_part(buf: &mut [u8], from: usize, to: usize)
    requires { (from ≤ to) × (to ≤ length buf.old) }
    ensures { buf.new ≡ over buf.old from (replicate (to - from) 0) }
{
    clear(&mut buf[from..to]);
}

// Whether every byte is zero.
// Kept: the bytes are gathered by `or`, since `all`, which leaves early, takes twenty times as long.
pub fn is_zero(s: &[u8]) -> bool
    ensures { result ≡ all_zero s.now }
{
    let mut acc: u8 = 0;
    for b in s {
        acc |= *b;
    }
    acc == 0
}

// Whether two lists of bytes are equal, their lengths too.
pub fn same(a: &[u8], b: &[u8]) -> bool
    ensures { result ≡ same_bytes a.now b.now }
{
    a == b
}
