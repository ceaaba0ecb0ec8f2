// The bodies of a batch written as segments, and where they end. The part of the buffer from a segment's place on is
// handed to the writer of segments.
ghost use Rattle.std.specs.Prelude.{◌≡◌, ◌+◌, ◌≤◌, ◌<◌, ◌^◌, length, take};
ghost use Rattle.octets.specs.Over.{over};
ghost use Rattle.segment.specs.Chained.{offsets_of};
ghost use Rattle.batch.specs.Form.{body_count, bodies_of};
ghost use Rattle.appending.specs.Append.{body_links, body_bytes, bodies_end};
ghost use Rattle.append.specs.vectors.Vectors.{body_sums};
ghost use Rattle.answers.specs.limits.Limits.{max_file};

use crate::form::Batch;
use segment::write::Header;

// Where the bodies of a batch end, if they begin at a place.
pub fn bodies_end(batch: &Batch, start: usize) -> usize
    requires { start ≤ max_file }
    ensures { result ≡ bodies_end start (bodies_of batch.now.bytes.now) }
{
    let mut at = start;
    for j in 0..batch.count() {
        at += 64 + octets::round_up(batch.body(j).len());
    }
    at
}

// The bodies of a batch as segments from a place on, with ids that go on from the first; and where each begins,
// behind the first `kept` offsets. The bodies' checksums are known: no body is read for its hash again.
pub fn put_bodies(
    buf: &mut [u8],
    batch: &Batch,
    start: usize,
    first_id: u64,
    timestamp: u64,
    offsets: &mut [u64],
    kept: usize,
    sums: &[u32],
)
    requires in_bounds { bodies_end start (bodies_of batch.now.bytes.now) ≤ length buf.old }
    requires batch_bound { (first_id + body_count batch.now.bytes.now < 2 ^ 64)
        × (kept + body_count batch.now.bytes.now ≤ length offsets.old) }
    requires sums_value { take (body_count batch.now.bytes.now) sums.now
        ≡ body_sums (bodies_of batch.now.bytes.now) }
    ensures buf { buf.new ≡ over buf.old start
        (body_bytes first_id timestamp (bodies_of batch.now.bytes.now)) }
    ensures offsets { offsets.new ≡ over offsets.old kept
        (offsets_of (body_links start first_id timestamp (bodies_of batch.now.bytes.now))) }
{
    let mut at = start;
    for j in 0..batch.count() {
        let header = Header {
            kind: batch.kind(j),
            flags: batch.flags(j),
            id: first_id + j as u64,
            timestamp,
        };
        let body = batch.body(j);
        offsets[kept + j] = at as u64;
        at += segment::write::put_segment(&mut buf[at..], header, body, sums[j]);
    }
}
