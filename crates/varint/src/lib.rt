// Unsigned LEB128 of a `u64`, in its shortest form: at most ten bytes, seven bits a byte, the lowest first.
#![tactic(auto)]

pub mod write;

ghost use Rattle.std.specs.Prelude.{◌≡◌, ◌+◌, ◌<◌, length, drop};
ghost use Rattle.answers.specs.Answer.{numbered};
ghost use Rattle.varint.specs.Varint.{read_varint, read_or_bad, onto, decode};

use answers::Refusal;

// A varint that was read: its value, and how many bytes it took.
#[derive(Clone, Copy)]
pub struct Varint {
    pub value: u64,
    pub length: usize,
}

// The varint at a place of a slice.
pub fn read_at(s: &[u8], at: usize) -> Result<Varint, Refusal>
    ensures { numbered result ≡ read_varint (drop at s.now) }
{
    if s.len() <= at {
        return Err(Refusal::Layout);
    }
    let b = octets::wide(s[at]);
    if b < 128 {
        return Ok(Varint {
            value: b,
            length: 1,
        });
    }
    let long = read_rest(s, at, b - 128);
    if long.length == 0 {
        return Err(Refusal::Layout);
    }
    Ok(long)
}

// What a varint that breaks a rule is read as, behind its first byte.
const BROKEN: Varint = Varint {
    value: 0,
    length: 0,
};

// What follows a first byte of 128 or more; of length 0 where it breaks a rule.
// Kept: a length of 0 for a refusal. Of a Result the place in memory is cleared for each varint that is read, also for
// one of a single byte, which makes a loop over short ones a quarter slower (tried and misses the speed bar).
// It is marked cold so that the short way stands in one piece in a loop over many, with the call of this one aside: a
// loop over short ones takes a third less time.
#[cold]
fn read_rest(s: &[u8], at: usize, first: u64) -> Varint
    requires { (at < length s.now) × (first < 128) }
    ensures { read_or_bad result ≡ onto 1 first 128 (decode 9 (drop (at + 1) s.now)) }
{
    let mut acc = first;
    let mut p: u64 = 128;
    for i in 1..9usize {
        if s.len() - at <= i {
            return BROKEN;
        }
        let b = octets::wide(s[at + i]);
        if b == 0 {
            return BROKEN;
        }
        if b < 128 {
            return Varint {
                value: acc + p * b,
                length: i + 1,
            };
        }
        acc += p * (b - 128);
        p *= 128;
    }
    if s.len() - at <= 9 {
        return BROKEN;
    }
    let b = octets::wide(s[at + 9]);
    if b == 1 {
        return Varint {
            value: acc + p,
            length: 10,
        };
    }
    BROKEN
}

// The varint at the front of a slice; more bytes may follow. It goes the way of `read_at` itself: with two callers
// the loop of `read_rest` stays a function of its own, and the short way of a one-byte varint is compiled into the
// loops that read many.
pub fn read(s: &[u8]) -> Result<Varint, Refusal>
    ensures { numbered result ≡ read_varint s.now }
{
    if s.len() == 0 {
        return Err(Refusal::Layout);
    }
    let b = octets::wide(s[0]);
    if b < 128 {
        return Ok(Varint {
            value: b,
            length: 1,
        });
    }
    let long = read_rest(s, 0, b - 128);
    if long.length == 0 {
        return Err(Refusal::Layout);
    }
    Ok(long)
}
