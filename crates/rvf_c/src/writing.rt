// Appending.
ghost use Rattle.std.specs.Prelude.{◌≡◌};
ghost use Rattle.answers.specs.Answer.{number, out_of};
ghost use Rattle.appending.specs.Append.{append_answer, append_buffer};

use appending::Appended;

// A batch appended to the file that is the first n bytes of a buffer, some ids retired: the new end, the manifest's id
// and the number of its entries; or 9, 1, 2, 10, then 5, 6, 7, then 11, 12, 13, 1, 9.
#[tactic(auto, unfolding(answers::specs::Answer::number, answers::specs::Answer::out_of, appending::specs::Append::appended_answer))]
#[unsafe(no_mangle)]
pub extern "C" fn rvf_append(
    buffer: &mut [u8],
    n: u64,
    batch: &[u8],
    retire: &[u64],
    timestamp: u64,
    out: &mut [u64; 3],
) -> u32
    ensures number { result ≡ number
        (append_answer buffer.old n batch.now retire.now) }
    ensures buffer { buffer.new ≡ append_buffer
        buffer.old n batch.now retire.now timestamp }
    ensures values { out.new ≡ out_of out.old
        (append_answer buffer.old n batch.now retire.now) }
{
    match append::append(buffer, n, batch, retire, timestamp) {
        Err(refusal) => refusal.number(),
        Ok(Appended { end, id, count }) => {
            out[0] = end as u64;
            out[1] = id;
            out[2] = count as u64;
            0
        }
    }
}
