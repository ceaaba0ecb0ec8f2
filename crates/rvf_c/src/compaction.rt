// Getting room back.
ghost use Rattle.std.specs.Prelude.{◌≡◌};
ghost use Rattle.answers.specs.Answer.{number, out_of};
ghost use Rattle.compacting.specs.Compact.{compact_case, compacted_answer, compact_buffer};

use compacting::Compacted;

// A fresh file of a file's live segments but manifests, with one manifest behind them, at the front of a buffer: the
// new end, the manifest's id and the number of its entries; or 1, 2, then 4 where a segment to be copied is not whole,
// then 9.
#[tactic(auto, unfolding(answers::specs::Answer::number, answers::specs::Answer::out_of, compacting::specs::Compact::compacted_answer))]
#[unsafe(no_mangle)]
pub extern "C" fn rvf_compact(file: &[u8], buffer: &mut [u8], out: &mut [u64; 3]) -> u32
    ensures number { result ≡ number (compacted_answer (compact_case file.now buffer.old)) }
    ensures buffer { buffer.new ≡ compact_buffer file.now buffer.old }
    ensures values { out.new ≡ out_of out.old
        (compacted_answer (compact_case file.now buffer.old)) }
{
    match compact::compact(file, buffer) {
        Err(refusal) => refusal.number(),
        Ok(Compacted { end, id, count }) => {
            out[0] = end as u64;
            out[1] = id;
            out[2] = count as u64;
            0
        }
    }
}
