// Reading by id: a segment's payload, a vector, a component.
ghost use Rattle.std.specs.Prelude.{◌≡◌};
ghost use Rattle.answers.specs.Answer.{number, out_of};
ghost use Rattle.reading.specs.Answers.{part_in, vector_case, vector_after, value_in};
ghost use Rattle.reading.specs.Part.{place_of, place_answer};
ghost use Rattle.reading.specs.Component.{bits_case, bits_answer};
ghost use Rattle.vecseg.specs.Vector.{vector_answer};

use reading::{ComponentBits, PayloadPlace};

// Where the payload of the live segment with an id lies in the file: where it begins, and its length; or 1, 2, 3, 15,
// 4.
#[tactic(auto, unfolding(answers::specs::Answer::number, answers::specs::Answer::out_of, reading::specs::Part::place_answer))]
#[unsafe(no_mangle)]
pub extern "C" fn rvf_payload(file: &[u8], id: u64, out: &mut [u64; 2]) -> u32
    ensures number { result ≡ number (place_answer (place_of (part_in file.now id))) }
    ensures values { out.new ≡ out_of out.old
        (place_answer (place_of (part_in file.now id))) }
{
    match lookup::place::payload_place(file, id) {
        Err(refusal) => refusal.number(),
        Ok(PayloadPlace { start, length }) => {
            out[0] = start as u64;
            out[1] = length as u64;
            0
        }
    }
}

// The vector with an id at the front of a buffer: dim, dtype and the length written; or 1, 2, the search's 4, 5, 6, 7,
// then 8, then 9.
#[unsafe(no_mangle)]
pub extern "C" fn rvf_vector(file: &[u8], id: u64, buffer: &mut [u8], out: &mut [u64; 3]) -> u32
    ensures number { result ≡ number (vector_answer (vector_case file.now id buffer.old)) }
    ensures buffer { buffer.new ≡ vector_after file.now id buffer.old }
    ensures values { out.new ≡ out_of out.old
        (vector_answer (vector_case file.now id buffer.old)) }
{
    let v = lookup::vector::vector(file, id, buffer);
    crate::values::lay_vector(v, out)
}

// A component of the vector with an id: its dtype, and its bytes as a number, a NaN's payload included; or 1, 2, the
// search's 4, 5, 6, 7, then 8.
#[tactic(auto, unfolding(answers::specs::Answer::number, answers::specs::Answer::out_of, reading::specs::Component::bits_answer))]
#[unsafe(no_mangle)]
pub extern "C" fn rvf_component(file: &[u8], id: u64, index: u64, out: &mut [u64; 2]) -> u32
    ensures number { result ≡ number (bits_answer (bits_case (value_in file.now id index))) }
    ensures values { out.new ≡ out_of out.old
        (bits_answer (bits_case (value_in file.now id index))) }
{
    match lookup::vector::component_bits(file, id, index) {
        Err(refusal) => refusal.number(),
        Ok(ComponentBits { dtype, bits }) => {
            out[0] = dtype as u64;
            out[1] = bits as u64;
            0
        }
    }
}
