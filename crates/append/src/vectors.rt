// The bodies of a batch: the number of the first bad vector body, and the checksum of each body. A vector body is read
// by its check anyway, so the check hands over the checksum that its segment is written with later.
ghost use Rattle.std.specs.Prelude.{◌≡◌, ◌≤◌, ◌<◌, OnOk, length, take, get_or};
ghost use Rattle.answers.specs.Answer.{numbered, refused_by};
ghost use Rattle.batch.specs.Form.{body_count, bodies_of};
ghost use Rattle.batch.specs.Lines.{no_body};
ghost use Rattle.appending.specs.Append.{vectors_bad};
ghost use Rattle.append.specs.vectors.Vectors.{body_summed, body_sums};
ghost use Rattle.answers.specs.limits.Limits.{max_bodies};

use crate::form::Batch;
use answers::Refusal;

// The checksum of body j of a batch, or what refuses it: a body of another type is not looked into.
fn body_summed(batch: &Batch, j: usize) -> Result<u32, Refusal>
    requires { j < body_count batch.now.bytes.now }
    ensures { numbered result ≡ body_summed (get_or (bodies_of batch.now.bytes.now) j no_body) }
{
    let body = batch.body(j);
    if batch.kind(j) != vecseg::KIND {
        return Ok(crc32c::checksum(body));
    }
    vec_read::walk::check_summed(body)
}

// The refusal of the first vector body that is not sound; where all are, the checksums of the bodies stand at the front
// of a list of our own.
pub fn check_vectors(batch: &Batch, sums: &mut [u32]) -> Result<(), Refusal>
    requires { max_bodies ≤ length sums.old }
    ensures answer { refused_by result ≡ vectors_bad (bodies_of batch.now.bytes.now) }
    ensures sums { OnOk result (take (body_count batch.now.bytes.now) sums.new
        ≡ body_sums (bodies_of batch.now.bytes.now)) }
{
    for j in 0..batch.count() {
        sums[j] = body_summed(batch, j)?;
    }
    Ok(())
}
