// The fresh file, written: the segments at some offsets of a file behind one another, and a manifest of them.
ghost use Rattle.std.specs.Prelude.{◌≡◌, ◌+◌, ◌*◌, ◌≤◌, length};
ghost use Rattle.octets.specs.Over.{over};
ghost use Rattle.octets.specs.Round.{round64};
ghost use Rattle.manifest.specs.Payload.{entry_size, payload_length};
ghost use Rattle.compact.specs.copies.Copies.{Standing, copies_at, places_at, placed, file_at};
ghost use Rattle.answers.specs.limits.Limits.{max_entries, max_file};

use segment::write::Header;

// The segments at some offsets, with their headers and padding, behind one another at the front of a buffer. Each
// offset becomes the segment's new place.
fn copy_segments(buf: &mut [u8], file: &[u8], offsets: &mut [u64])
    requires standing { Standing file.now offsets.old }
    requires offsets_in_bounds { length (copies_at file.now offsets.old) ≤ length buf.old }
    ensures buf { buf.new ≡ over buf.old 0
        (copies_at file.now offsets.old) }
    ensures offsets { offsets.new ≡ places_at file.now 0 offsets.old }
{
    let mut at: usize = 0;
    for offset in offsets.iter_mut() {
        let p = *offset as usize;
        let length = octets::le::u64_at(file, p + segment::fields::LENGTH) as usize;
        let size = 64 + octets::round_up(length);
        confirm::entries::copy_at(buf, at, file, p, size);
        *offset = at as u64;
        at += size;
    }
}

// The places of some segments, each in the first eight bytes of its entry, from a place on.
fn put_places(buf: &mut [u8], base: usize, places: &[u64])
    requires { base + entry_size * length places.now ≤ length buf.old }
    ensures { buf.new ≡ placed base places.now buf.old }
{
    for (i, place) in places.iter().enumerate() {
        octets::le::put(buf, base + manifest::fields::ENTRY_SIZE * i, 8, *place);
    }
}

// These segments, which end at a place, and there a manifest of them, all live. The manifest is written where it
// stands: its entries from the headers in the old file, which get their new places when the segments have theirs.
pub fn put_file(
    buf: &mut [u8],
    file: &[u8],
    offsets: &mut [u64],
    at: usize,
    id: u64,
    timestamp: u64,
)
    requires offsets_len_bound { (length offsets.old ≤ max_entries) × (Standing file.now offsets.old) }
    requires at_value { (at ≡ length (copies_at file.now offsets.old)) × (at ≤ max_file) }
    requires offsets_in_bounds { at + (64 + round64 (payload_length (length offsets.old))) ≤ length buf.old }
    ensures { buf.new ≡ over buf.old 0
        (file_at file.now offsets.old at id timestamp) }
{
    let n = offsets.len();
    let body = at + 64;
    let states = [0u8; answers::limits::MAX_ENTRIES];
    let len = confirm::payload::put_payload(
        &mut buf[body..],
        file,
        offsets,
        &states[..n],
        at as u64,
        id,
    );
    copy_segments(buf, file, offsets);
    put_places(buf, body + manifest::fields::RECORD_HEAD, offsets);
    let end = body + len;
    let hash = segment::hash_by(confirm::payload::payload_sum(&buf[body..end]));
    let header = Header {
        kind: manifest::fields::KIND,
        flags: 0,
        id,
        timestamp,
    };
    segment::write::put_header(&mut buf[at..], header, len, hash);
}
