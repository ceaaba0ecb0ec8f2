// VEC_SEG payloads.
ghost use Rattle.std.specs.Prelude.{◌≡◌};
ghost use Rattle.answers.specs.Answer.{number, out_of};
ghost use Rattle.answers.specs.Write.{wrote_answer, write_answer, write_buffer};
ghost use Rattle.vecseg.specs.Payload.{check_of};
ghost use Rattle.vecseg.specs.Writer.{vec_bad, vec_bytes};
ghost use Rattle.vecseg.specs.Vector.{vector_answer, vector_in, vector_buffer};

// The check of a payload: 5, 6, 7, or 0 where it is sound.
#[unsafe(no_mangle)]
pub extern "C" fn rvf_vec_check(payload: &[u8]) -> u32
    ensures { result ≡ check_of payload.now }
{
    answers::number_of(&vec_read::check::check(payload))
}

// A payload of one block at the front of a buffer: its length, or 14, then 9.
#[unsafe(no_mangle)]
pub extern "C" fn rvf_vec_write(
    buffer: &mut [u8],
    ids: &[u64],
    columns: &[u8],
    dim: u64,
    dtype: u64,
    tier: u64,
    encoding: u64,
    interval: u64,
    out: &mut [u64; 1],
) -> u32
    ensures number { result ≡ number (wrote_answer (write_answer
        (vec_bad ids.now columns.now dim dtype tier encoding interval)
        (vec_bytes ids.now columns.now dim dtype tier encoding interval)
        buffer.old)) }
    ensures buffer { buffer.new ≡ write_buffer
        (vec_bad ids.now columns.now dim dtype tier encoding interval)
        (vec_bytes ids.now columns.now dim dtype tier encoding interval)
        buffer.old }
    ensures values { out.new ≡ out_of out.old (wrote_answer (write_answer
        (vec_bad ids.now columns.now dim dtype tier encoding interval)
        (vec_bytes ids.now columns.now dim dtype tier encoding interval)
        buffer.old)) }
{
    let w = vec_write::write(buffer, ids, columns, dim, dtype, tier, encoding, interval);
    crate::values::lay_length(w, out)
}

// A vector by its id out of a payload, which is checked whole first: dim, dtype and the length written; or 5, 6, 7,
// then 8, then 9.
#[unsafe(no_mangle)]
pub extern "C" fn rvf_vec_read(
    payload: &[u8],
    id: u64,
    buffer: &mut [u8],
    out: &mut [u64; 3],
) -> u32
    ensures number { result ≡ number (vector_answer (vector_in payload.now id buffer.old)) }
    ensures buffer { buffer.new ≡ vector_buffer payload.now id buffer.old }
    ensures values { out.new ≡ out_of out.old
        (vector_answer (vector_in payload.now id buffer.old)) }
{
    let v = vec_read::read(payload, id, buffer);
    crate::values::lay_vector(v, out)
}
