// A vector's bytes in dimension order, gathered from the columns of its block, and a component by its kind.
ghost use Rattle.std.specs.Prelude.{◌≡◌, ◌+◌, ◌*◌, ◌≤◌, ◌<◌, length, take, drop};
ghost use Rattle.answers.specs.Answer.{numbered};
ghost use Rattle.answers.specs.Write.{write_answer, write_buffer};
ghost use Rattle.vecseg.specs.Payload.{width};
ghost use Rattle.vecseg.specs.Find.{vector_of};
ghost use Rattle.vecseg.specs.Component.{component_of};
ghost use Rattle.vec_read.specs.values.Vector.{place_with, Bounds};

use crate::walk::Place;
use answers::Refusal;
use std::num::f32_from_bits_with_nan;
use vecseg::Component;

// The component whose bytes start at a place. A NaN's pattern gives a NaN, which the language has without its payload.
pub fn component_at(s: &[u8], at: usize, dtype: u8) -> Component
    requires { (0 < width dtype) × (at + width dtype ≤ length s.now) }
    ensures { result ≡ component_of dtype (take (width dtype) (drop at s.now)) }
{
    if dtype == 0 {
        return Component::Float(f32_from_bits_with_nan(octets::le::u32_at(s, at)));
    }
    if dtype == 3 {
        return Component::Signed(s[at].cast_signed());
    }
    Component::Unsigned(s[at])
}

// A vector's bytes at the front of a buffer, and how many; or 9, with the buffer as it was. It stays a function of its
// own: in the midst of a caller its loop runs short of registers, and takes a tenth longer for each component.
#[inline(never)]
pub fn read_vector(s: &[u8], place: Place, buf: &mut [u8]) -> Result<usize, Refusal>
    requires { Bounds (length s.now) place.offset place.count place.dim (width place.dtype)
        place.index }
    ensures answer { numbered result ≡ write_answer 0 (vector_of s.now
        (place_with place.offset place.count place.dim place.dtype place.index)) buf.old }
    ensures buf { buf.new ≡ write_buffer 0 (vector_of s.now
        (place_with place.offset place.count place.dim place.dtype place.index)) buf.old }
{
    let w = crate::width::width_of(place.dtype as u64);
    let n = place.dim * w;
    if buf.len() < n {
        return Err(Refusal::NoRoom);
    }
    for d in 0..place.dim {
        let from = place.offset + (d * place.count + place.index) * w;
        let end = from + w;
        let to = d * w;
        octets::copy(&mut buf[to..], &s[from..end]);
    }
    Ok(n)
}
