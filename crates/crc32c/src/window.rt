// The register after a long slice, by sparse multiples of the polynomial. A byte of a message may be taken away if it
// is added at the other places of a multiple: that is one loop of exclusive ors over bytes, of which the compiler makes
// vector instructions. What is left in the end is a window, as long as the multiple, that stands for the register.
ghost use Rattle.std.specs.Prelude.{◌≡◌, ◌+◌, ◌<◌, ◌≤◌, ◌^◌, refl, ℕ, Bool, true, false, length, get_or, replicate};
ghost use Rattle.std.specs.Int.Bits.{bit_xor};
ghost use Rattle.crc32c.specs.Crc.{crc_from};
ghost use Rattle.crc32c.specs.Sparse.{sum};
ghost use Rattle.crc32c.specs.Span.{span};
ghost use Rattle.crc32c.specs.Window.{held};
ghost use Rattle.crc32c.specs.Start.{reach_of, size_of, inner_of};

// How many bytes go into a window before it is brought to the front again.
const PART: usize = 8192;

// A sparse multiple of the polynomial: which of the two it is, and how its places are added.
trait Multiple {
    ghost is_far: { Bool };

    // How long its window is, in bytes.
    const LONG: usize;

    ghost LONG: { ℕ };

    // The bytes at the places inside the window at a place, added up.
    fn inner(w: &[u8], i: usize) -> u8
        requires { i + size_of is_far ≤ length w.now }
        ensures { result ≡ sum (λ k. get_or w.now (i + k) 0) (inner_of is_far) };

    // A message, as long as the window, that has the register of the window at the front.
    fn message(m: &mut [u8], w: &[u8])
        requires { (m.old ≡ replicate (size_of is_far) 0) × (size_of is_far ≤ length w.now) }
        ensures { crc_from 0 m.new ≡ held (reach_of is_far) w.now 0 };

    ghost is_long: { LONG ≡ size_of is_far };
}

// x^299 + x^142 + x^134 + x^62 + x^21 + 1, in bytes. No byte of its window waits for the 156 before it, so the
// compiler does many at a time.
struct Near;

impl Multiple for Near {
    ghost is_far = { false };

    const LONG: usize = 299;

    ghost LONG = { size_of false };

    ghost is_long = { refl };

    fn inner(w: &[u8], i: usize) -> u8 {
        w[i + 142] ^ w[i + 134] ^ w[i + 62] ^ w[i + 21]
    }

    fn message(m: &mut [u8], w: &[u8]) {
        add(m, w, 21);
        add(m, w, 62);
        add(m, w, 134);
        add(m, w, 142);
        add(m, w, 299);
    }
}

// x^5275 + x^4508 + x^2751 + 1: fewer places, in a longer window.
struct Far;

impl Multiple for Far {
    ghost is_far = { true };

    const LONG: usize = 5275;

    ghost LONG = { size_of true };

    ghost is_long = { refl };

    fn inner(w: &[u8], i: usize) -> u8 {
        w[i + 4508] ^ w[i + 2751]
    }

    fn message(m: &mut [u8], w: &[u8]) {
        add(m, w, 2751);
        add(m, w, 4508);
        add(m, w, 5275);
    }
}

// Adds the first k bytes of a window on to the last k of a message.
fn add(m: &mut [u8], w: &[u8], k: usize)
    requires { (k ≤ length m.old) × (k ≤ length w.now) }
    ensures { (length m.new ≡ length m.old)
        × (span m.new 0 (length m.old)
        ≡ bit_xor (span w.now 0 k) (span m.old 0 (length m.old))) }
{
    let d = m.len() - k;
    for (i, x) in m[d..].iter_mut().enumerate() {
        *x ^= w[i];
    }
}

// Takes a slice in behind the window at the front, which goes on by a byte for each.
fn run<M: Multiple>(w: &mut [u8], s: &[u8])
    requires { length s.now + size_of M.is_far ≤ length w.old }
    ensures { held (reach_of M.is_far) w.new (length s.now)
        ≡ crc_from (held (reach_of M.is_far) w.old 0) s.now }
{
    for (i, b) in s.iter().enumerate() {
        w[i + M::LONG] = *b ^ M::inner(w, i) ^ w[i];
    }
}

// The window at a place, brought to the front.
fn bring_down<M: Multiple>(w: &mut [u8], by: usize)
    requires { by + size_of M.is_far ≤ length w.old }
    ensures { held (reach_of M.is_far) w.new 0 ≡ held (reach_of M.is_far) w.old by }
{
    w.copy_within(by..by + M::LONG, 0);
}

// Takes a slice in by parts. The window then stands at the place that is answered.
fn take_in<M: Multiple>(w: &mut [u8], s: &[u8]) -> usize
    requires { 8192 + size_of M.is_far ≤ length w.old }
    ensures { (held (reach_of M.is_far) w.new result
        ≡ crc_from (held (reach_of M.is_far) w.old 0) s.now) × (result ≤ 8192) }
{
    let parts = s.chunks_exact(PART);
    let rest = parts.remainder();
    for part in parts {
        run::<M>(w, part);
        bring_down::<M>(w, PART);
    }
    run::<M>(w, rest);
    rest.len()
}

// A message, as long as the window, that has the register after a slice. The window is made in a buffer that the caller
// has, with zeros at its front.
fn message_of<M: Multiple>(m: &mut [u8], w: &mut [u8], c: u32, s: &[u8])
    requires { (8192 + size_of M.is_far ≤ length w.old)
        × ((m.old ≡ replicate (size_of M.is_far) 0) × ((n : ℕ) → n < size_of M.is_far → get_or w.old n 0 ≡ 0)) }
    ensures { crc_from 0 m.new ≡ crc_from c s.now }
{
    octets::le::put(w, 0, 4, c as u64);
    let at = take_in::<M>(w, s);
    M::message(m, &w[at..]);
}

// The register after a slice, turned over: all of it goes into the near window, and the window's message through the
// lanes.
fn near_in(w: &mut [u8], c: u32, s: &[u8]) -> u32
    requires { 8491 ≤ length w.old }
    ensures { result ≡ bit_xor (crc_from c s.now) 0xFFFF_FFFF }
{
    octets::clear_part(w, 0, Near::LONG);
    let mut m = [0u8; Near::LONG];
    message_of::<Near>(&mut m, w, c, s);
    crate::by_lanes(0, &m)
}

pub fn by_near(c: u32, s: &[u8]) -> u32
    ensures { result ≡ bit_xor (crc_from c s.now) 0xFFFF_FFFF }
{
    let mut w = [0u8; PART + Near::LONG];
    near_in(&mut w, c, s)
}

// The same by the far window, whose message goes through the near one. That is made where the far one stood.
pub fn by_far(c: u32, s: &[u8]) -> u32
    ensures { result ≡ bit_xor (crc_from c s.now) 0xFFFF_FFFF }
{
    let mut w = [0u8; PART + Far::LONG];
    let mut m = [0u8; Far::LONG];
    message_of::<Far>(&mut m, &mut w, c, s);
    near_in(&mut w, 0, &m)
}
