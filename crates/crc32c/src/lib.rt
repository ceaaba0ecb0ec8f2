// CRC32C of a slice: a short one in four lanes of eight bytes, a longer one by windows. No table stands here. Eight
// steps with a polynomial that is known are a loop that the compiler replaces by a look-up in a table of 256 numbers,
// which it lays down once among the program's constants. A constant array of the source would be copied at each call.
#![tactic(auto)]

mod window;

ghost use Rattle.std.specs.Prelude.{◌≡◌, ◌+◌, ◌<◌, ◌≤◌, ◌^◌, refl, ℕ, List, length};
ghost use Rattle.std.specs.Int.Bits.{bit_xor};
ghost use Rattle.crc32c.specs.Crc.{bits, crc_from, crc_of};
ghost use Rattle.crc32c.specs.Words.{eight};
ghost use Rattle.crc32c.specs.Ahead.{Ahead, factors_from};
ghost use Rattle.crc32c.specs.Extend.{extended};

// Castagnoli's polynomial, its highest power in the lowest bit.
pub const POLYNOMIAL: u64 = 0x82F6_3B78;

// The register after some steps, and what it is after the last one with the polynomial added.
#[derive(Drop)]
struct Stepped {
    register: u64,
    added: u64,
}

// The register after k steps with a polynomial. Two things are here only so that the compiler still knows the loop as
// one for a table where it learns the polynomial, which is at the call. `added`, which no caller reads, keeps the
// choice between the two registers as it is written; and k, which is 8 at most calls and 16 at one, keeps the loop
// from being unrolled before.
// Kept: with no `added` the compiler makes no table, and the checksum takes up to nine times as long.
fn steps(p: u64, k: usize, x: u64) -> Stepped
    ensures { result.register ≡ bits p k x }
{
    let mut register = x;
    let mut added: u64 = 0;
    for _ in 0..k {
        added = (register / 2) ^ p;
        if register % 2 == 1 {
            register = added;
        } else {
            register = register / 2;
        }
    }
    Stepped { register, added }
}

// How far a word is taken on, by the factors for its bytes, the lowest byte's first. The compiler has to know a factor
// where it looks for loops that make tables, so they are constants of a type.
trait Distance {
    // How many bits on the highest byte is taken.
    ghost least: { ℕ };

    const FACTORS: [u64; 8];

    ghost FACTORS: { List ℕ };

    ghost hold: { FACTORS ≡ factors_from least };
}

struct FourWords;

impl Distance for FourWords {
    ghost least = { 200 };

    const FACTORS: [u64; 8] = [
        0x1E_D368_6580,
        0x3C_53B0_4680,
        0xA_DDA0_8480,
        0x7B_EDE5_9280,
        0x51_0AC5_9A00,
        0x2F_1F49_5000,
        0x16_D742_0780,
        0x17_1A65_CE80,
    ];

    ghost FACTORS = { factors_from 200 };

    ghost hold = { refl };
}

struct OneWord;

impl Distance for OneWord {
    ghost least = { 8 };

    const FACTORS: [u64; 8] = [
        0x24_9E3E_9380,
        0x34_0196_6400,
        0x77_9835_8C80,
        0x1C_08B7_D600,
        0x6E_A2D5_5C00,
        0x52_A0C9_3F00,
        0x9_D14C_3B80,
        0x79_35C1_8180,
    ];

    ghost FACTORS = { factors_from 8 };

    ghost hold = { refl };
}

// What stands for a word of eight bytes some words on: each byte times the factor for its place, and the sum of the
// products. They are not reduced, so the sum has up to 39 bits. The next word takes them in.
fn word_on<D: Distance>(x: u64) -> u64
    ensures { Ahead (56 + D.least) x result }
{
    let factors = D::FACTORS;
    let x1 = x / 256;
    let x2 = x1 / 256;
    let x3 = x2 / 256;
    let x4 = x3 / 256;
    let x5 = x4 / 256;
    let x6 = x5 / 256;
    let x7 = x6 / 256;
    let r7 = steps(factors[7], 8, x7).register;
    let r6 = steps(factors[6], 8, x6 % 256).register ^ r7;
    let r5 = steps(factors[5], 8, x5 % 256).register ^ r6;
    let r4 = steps(factors[4], 8, x4 % 256).register ^ r5;
    let r3 = steps(factors[3], 8, x3 % 256).register ^ r4;
    let r2 = steps(factors[2], 8, x2 % 256).register ^ r3;
    let r1 = steps(factors[1], 8, x1 % 256).register ^ r2;
    steps(factors[0], 8, x % 256).register ^ r1
}

// The number of the eight bytes at a place, the lowest first. The compiler makes one load of the eight.
fn word_at(s: &[u8], at: usize) -> u64
    requires { at + 8 ≤ length s.now }
    ensures { result ≡ eight s.now at }
{
    u64::from_le_bytes([
        s[at],
        s[at + 1],
        s[at + 2],
        s[at + 3],
        s[at + 4],
        s[at + 5],
        s[at + 6],
        s[at + 7],
    ])
}

// The register after a slice. A word is taken on as it is where another follows it. The last one is reduced: six of
// its bytes are taken on to the last two, and sixteen steps do the rest. The bytes behind it go one by one.
fn rest(c: u64, s: &[u8]) -> u64
    ensures { result ≡ crc_from c s.now }
{
    let (words, bytes) = s.split_at(s.len() / 8 * 8);
    let mut x = c;
    if words.len() >= 8 {
        let (front, last) = words.split_at(words.len() - 8);
        for word in front.chunks_exact(8) {
            x = word_on::<OneWord>(x ^ word_at(word, 0));
        }
        let y = x ^ word_at(last, 0);
        x = steps(
            POLYNOMIAL,
            16,
            word_on::<OneWord>(y % 0x1_0000_0000_0000 * 0x1_0000) ^ (y / 0x1_0000_0000_0000),
        )
        .register;
    }
    for b in bytes {
        x = steps(POLYNOMIAL, 8, x ^ u64::from(*b)).register;
    }
    x
}

// The register after most of a slice, in four lanes, each of which takes in every fourth word, and what is left of the
// slice. None waits for another, until the last four words bring them together. What is too short for that is left
// whole. It is handed back, and not gone on with here: so `rest` has one caller, and all of it is compiled into one
// function.
fn lanes(c: u64, s: &[u8]) -> (u64, &[u8])
    ensures { crc_from result.0 result.1.now ≡ crc_from c s.now }
{
    if s.len() < 64 {
        return (c, s);
    }
    let (front, end) = s.split_at(s.len() / 32 * 32 - 32);
    let mut a = c;
    let mut b: u64 = 0;
    let mut d: u64 = 0;
    let mut e: u64 = 0;
    for words in front.chunks_exact(32) {
        a = word_on::<FourWords>(a ^ word_at(words, 0));
        b = word_on::<FourWords>(b ^ word_at(words, 8));
        d = word_on::<FourWords>(d ^ word_at(words, 16));
        e = word_on::<FourWords>(e ^ word_at(words, 24));
    }
    let x = word_on::<OneWord>(a ^ word_at(end, 0));
    let y = word_on::<OneWord>(x ^ b ^ word_at(end, 8));
    let z = word_on::<OneWord>(y ^ d ^ word_at(end, 16));
    (z ^ e, &end[24..])
}

// The register after a slice, turned over, by the lanes.
fn by_lanes(c: u32, s: &[u8]) -> u32
    ensures { result ≡ bit_xor (crc_from c s.now) 0xFFFF_FFFF }
{
    let (register, left) = lanes(c as u64, s);
    (rest(register, left) ^ 0xFFFF_FFFF) as u32
}

// From how many bytes on a window is won back, and a second one in front of it.
const LONG: usize = 1024;

const LONGEST: usize = 32768;

// The CRC32C of a slice that stands behind others, by the checksum of those: 0 where none do.
pub fn extend(sum: u32, data: &[u8]) -> u32
    ensures { result ≡ extended sum «data».now }
{
    let c = sum ^ 0xFFFF_FFFF;
    if data.len() < LONG {
        return by_lanes(c, data);
    }
    if data.len() < LONGEST {
        return crate::window::by_near(c, data);
    }
    crate::window::by_far(c, data)
}

// The CRC32C of a slice. It is `extend` behind nothing, written out: with two callers each the three ways stay
// functions of their own, and a short slice does not pay for the frame of a long one.
// Kept: as a call of `extend` it takes up to a fifth longer over a short slice.
pub fn checksum(data: &[u8]) -> u32
    ensures { result ≡ crc_of «data».now }
{
    if data.len() < LONG {
        return by_lanes(0xFFFF_FFFF, data);
    }
    if data.len() < LONGEST {
        return crate::window::by_near(0xFFFF_FFFF, data);
    }
    crate::window::by_far(0xFFFF_FFFF, data)
}
