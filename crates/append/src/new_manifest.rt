// The manifest that an append ends with, written as a segment.
ghost use Rattle.std.specs.Prelude.{◌≡◌, ◌+◌, ◌≤◌, length, take};
ghost use Rattle.octets.specs.Over.{over};
ghost use Rattle.octets.specs.Round.{round64};
ghost use Rattle.segment.specs.Written.{segment};
ghost use Rattle.manifest.specs.Payload.{payload_length};
ghost use Rattle.manifest.specs.At.{Inside, payload_at};
ghost use Rattle.answers.specs.limits.Limits.{max_entries, max_file};

use segment::write::Header;

// The manifest of the links at some offsets, with their states, as a segment at a place. Its payload is put together
// in a list of our own, since the headers that it copies stand in the same buffer.
pub fn put_manifest(
    buf: &mut [u8],
    at: usize,
    id: u64,
    timestamp: u64,
    offsets: &[u64],
    states: &[u8],
)
    requires offsets_len_bound { (length offsets.now ≤ max_entries) × (length offsets.now ≤ length states.now) }
    requires offsets_in_bounds { (at + (64 + round64 (payload_length (length offsets.now))) ≤ length buf.old) × (at ≤ max_file) }
    requires inside { Inside (take at buf.old) offsets.now }
    ensures { buf.new ≡ over buf.old at
        (segment 5 0 id timestamp (payload_at (take at buf.old) offsets.now
        states.now at id)) }
{
    let mut payload = [0u8; manifest::fields::MAX_PAYLOAD];
    let n = confirm::payload::put_payload(&mut payload, &buf[..at], offsets, states, at as u64, id);
    let sum = confirm::payload::payload_sum(&payload[..n]);
    let header = Header {
        kind: manifest::fields::KIND,
        flags: 0,
        id,
        timestamp,
    };
    segment::write::put_segment(&mut buf[at..], header, &payload[..n], sum);
}
