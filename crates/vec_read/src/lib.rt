// A vector by its id out of a VEC_SEG payload. The payload is checked whole first: no vector leaves one that is not
// sound.
#![tactic(auto)]

pub mod block;
pub mod check;
pub mod lines;
pub mod values;
pub mod walk;
pub mod width;

ghost use Rattle.std.specs.Prelude.{◌≡◌};
ghost use Rattle.answers.specs.Answer.{numbered};
ghost use Rattle.vecseg.specs.Vector.{vector_in, vector_buffer};

use answers::Refusal;
use vecseg::Vector;

// 5, 6, 7 for a payload that is not sound; 8 where no block holds the id; 9 where the buffer is short.
pub fn read(payload: &[u8], id: u64, buf: &mut [u8]) -> Result<Vector, Refusal>
    ensures answer { numbered result ≡ vector_in payload.now id buf.old }
    ensures buf { buf.new ≡ vector_buffer payload.now id buf.old }
{
    let found = crate::walk::walk(payload, Some(id), false)?;
    let Some(place) = found.place else {
        return Err(Refusal::NoVector);
    };
    let length = crate::values::read_vector(payload, place, buf)?;
    Ok(Vector {
        dim: place.dim,
        dtype: place.dtype,
        length,
    })
}
