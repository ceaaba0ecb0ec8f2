// A manifest's payload written: its record of the entries, and the root behind it with its checksum. And the checksum
// of a payload, for its segment's header.
ghost use Rattle.std.specs.Prelude.{◌≡◌, ◌+◌, ◌≤◌, ◌<◌, ◌^◌, length};
ghost use Rattle.octets.specs.Over.{over};
ghost use Rattle.octets.specs.Round.{round64};
ghost use Rattle.crc32c.specs.Crc.{crc_of};
ghost use Rattle.manifest.specs.Payload.{payload_length, root};
ghost use Rattle.manifest.specs.At.{Inside, payload_at};
ghost use Rattle.confirm.specs.payload.Sum.{Rooted};

// The bytes that a root begins with.
const NAME: [u8; 4] = [0x52, 0x56, 0x4D, 0x30];

// The register of the power 8 * 4052: the product with it takes a checksum over the root's zeros.
const ZEROS_POWER: u64 = 0x4362_E151;

// The root of a manifest with c entries at the front of a buffer. Its checksum is taken of the bytes before it, and the
// zeros among them are one product, not a pass.
#[tactic(auto, unfolding(manifest::specs::Payload::payload_length, manifest::specs::Sized::record_by, octets::specs::Round::round64))]
pub fn put_root(buf: &mut [u8], c: usize, offset: u64, id: u64)
    requires in_bounds { 4096 ≤ length buf.old }
    requires c_bound { offset + 64 + round64 (payload_length c) < 2 ^ 64 }
    ensures { buf.new ≡ over buf.old 0 (root c offset id) }
{
    let long = manifest::fields::RECORD_HEAD + manifest::fields::ENTRY_SIZE * c;
    let size = octets::round_up(octets::round_up(long) + manifest::fields::ROOT_SIZE);
    let end = offset + 64 + size as u64;
    octets::copy(buf, &NAME);
    octets::le::put(buf, manifest::fields::ROOT_VERSION, 2, 1);
    octets::le::put(buf, manifest::fields::ROOT_COUNT, 2, c as u64);
    octets::le::put(buf, manifest::fields::ROOT_OFFSET, 8, offset);
    octets::le::put(buf, manifest::fields::ROOT_ID, 8, id);
    octets::le::put(buf, manifest::fields::ROOT_RECORD, 8, long as u64);
    octets::le::put(buf, manifest::fields::ROOT_END, 8, end);
    octets::clear_part(
        buf,
        manifest::fields::ROOT_ZEROS,
        manifest::fields::ROOT_CHECKSUM,
    );
    let sum = crc32c::checksum(&buf[..manifest::fields::ROOT_ZEROS]) as u64;
    let crc = crc_join::times(sum ^ 0xFFFF_FFFF, ZEROS_POWER) ^ 0xFFFF_FFFF;
    octets::le::put(buf, manifest::fields::ROOT_CHECKSUM, 4, crc);
}

// The payload of a manifest at an offset, with an id, over the links at some offsets with their states; and its length.
#[tactic(auto, unfolding(manifest::specs::Payload::payload_length, manifest::specs::Sized::record_by, octets::specs::Round::round64))]
pub fn put_payload(
    buf: &mut [u8],
    file: &[u8],
    offsets: &[u64],
    states: &[u8],
    offset: u64,
    id: u64,
) -> usize
    requires offsets_in_bounds { (payload_length (length offsets.now) ≤ length buf.old)
        × (length offsets.now ≤ length states.now) }
    requires inside { Inside file.now offsets.now }
    requires offsets_bound { offset + 64 + round64 (payload_length (length offsets.now)) < 2 ^ 64 }
    ensures answer { result ≡ payload_length (length offsets.now) }
    ensures buf { buf.new ≡ over buf.old 0
        (payload_at file.now offsets.now states.now offset id) }
{
    let c = offsets.len();
    let long = manifest::fields::ENTRY_SIZE * c;
    let end = 8 + long;
    let filled = octets::round_up(end);
    octets::le::put(buf, 0, 2, 1);
    octets::le::put(buf, 2, 4, long as u64);
    octets::le::put(buf, 6, 2, 0);
    crate::entries::put_entries(buf, file, offsets, states);
    octets::clear_part(buf, end, filled);
    put_root(&mut buf[filled..], c, offset, id);
    filled + manifest::fields::ROOT_SIZE
}

// The checksum of a manifest's payload. Its root holds the checksum of its own bytes, so a pass goes over the record
// alone, and the root is joined behind it.
pub fn payload_sum(payload: &[u8]) -> u32
    requires { Rooted payload.now }
    ensures { result ≡ crc_of payload.now }
{
    let from = payload.len() - manifest::fields::ROOT_SIZE;
    let last = payload.len() - 4;
    let stored = octets::le::u32_at(payload, last);
    let known = crc32c::extend(stored, &payload[last..]);
    crc_join::extend_by(crc32c::checksum(&payload[..from]), &payload[from..], known)
}
