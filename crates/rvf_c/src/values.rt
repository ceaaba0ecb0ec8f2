// The values of an answer that several calls have, laid into the caller's array.
ghost use Rattle.std.specs.Prelude.{◌≡◌};
ghost use Rattle.answers.specs.Answer.{number, out_of, numbered};
ghost use Rattle.answers.specs.Write.{wrote_answer};
ghost use Rattle.vecseg.specs.Vector.{vector_answer};

use answers::Refusal;
use vecseg::Vector;

// The length written, and 0; or the number of a refusal, and the array as it was.
pub fn lay_length(wrote: Result<usize, Refusal>, out: &mut [u64; 1]) -> u32
    ensures number { result ≡ number (wrote_answer (numbered wrote)) }
    ensures values { out.new ≡ out_of out.old (wrote_answer (numbered wrote)) }
{
    match wrote {
        Err(reason) => reason.number(),
        Ok(length) => {
            out[0] = length as u64;
            0
        }
    }
}

// A vector's dim, its dtype and the length written, and 0; or the number of a refusal, and the array as it was.
pub fn lay_vector(read: Result<Vector, Refusal>, out: &mut [u64; 3]) -> u32
    ensures number { result ≡ number (vector_answer (numbered read)) }
    ensures values { out.new ≡ out_of out.old (vector_answer (numbered read)) }
{
    match read {
        Err(refusal) => refusal.number(),
        Ok(Vector { dim, dtype, length }) => {
            out[0] = dim as u64;
            out[1] = dtype as u64;
            out[2] = length as u64;
            0
        }
    }
}
