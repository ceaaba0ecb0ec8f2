// The lister's text.
ghost use Rattle.std.specs.Prelude.{◌≡◌};
ghost use Rattle.answers.specs.Answer.{number, out_of};
ghost use Rattle.answers.specs.Write.{wrote_answer, write_answer, write_buffer};
ghost use Rattle.reading.specs.Listing.{list_text};

// What the lister prints about a file of at most 65,536 bytes, or that it refuses, at the front of a buffer: its
// length, or 9.
#[unsafe(no_mangle)]
pub extern "C" fn rvf_list(file: &[u8], buffer: &mut [u8], out: &mut [u64; 1]) -> u32
    ensures number { result ≡ number
        (wrote_answer (write_answer 0 (list_text file.now) buffer.old)) }
    ensures buffer { buffer.new ≡ write_buffer 0 (list_text file.now) buffer.old }
    ensures values { out.new ≡ out_of out.old
        (wrote_answer (write_answer 0 (list_text file.now) buffer.old)) }
{
    let w = listing::list(file, buffer);
    crate::values::lay_length(w, out)
}
