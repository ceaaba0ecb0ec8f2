// Segments written: a header for a payload that is already in place, and a whole segment.
ghost use Rattle.std.specs.Prelude.{◌≡◌, ◌+◌, ◌≤◌, length};
ghost use Rattle.octets.specs.Over.{over};
ghost use Rattle.octets.specs.Round.{round64};
ghost use Rattle.crc32c.specs.Crc.{crc_of};
ghost use Rattle.segment.specs.Written.{header_of, segment};

// What a segment's header says of it beside its payload's length and hash.
// Kept: the type as a byte, as in `Step`.
#[derive(Clone, Copy)]
pub struct Header {
    pub kind: u8,
    pub flags: u16,
    pub id: u64,
    pub timestamp: u64,
}

// The 64 bytes of a header, for a payload of len bytes with this content hash.
fn header_of(header: Header, len: usize, hash: [u8; 16]) -> [u8; 64]
    ensures { result ≡ header_of header.kind header.flags header.id header.timestamp
        len hash }
{
    let mut h = [0u8; 64];
    octets::copy(&mut h, &crate::MAGIC);
    h[crate::fields::VERSION] = 1;
    h[crate::fields::KIND] = header.kind;
    octets::le::put(&mut h, crate::fields::FLAGS, 2, header.flags as u64);
    octets::le::put(&mut h, crate::fields::ID, 8, header.id);
    octets::le::put(&mut h, crate::fields::LENGTH, 8, len as u64);
    octets::le::put(&mut h, crate::fields::TIMESTAMP, 8, header.timestamp);
    octets::copy(&mut h[crate::fields::HASH..], &hash);
    h
}

// That header at the front of a buffer, where the payload may stand behind it already; the bytes behind the header
// stay.
pub fn put_header(buf: &mut [u8], header: Header, len: usize, hash: [u8; 16])
    requires { 64 ≤ length buf.old }
    ensures { buf.new ≡ over buf.old 0
        (header_of header.kind header.flags header.id header.timestamp len hash) }
{
    let h = header_of(header, len, hash);
    octets::copy(buf, &h);
}

// A segment at the front of a buffer that has room for it, and its size; the bytes behind it stay. The checksum of the
// payload is known to the caller, which has read it already.
pub fn put_segment(buf: &mut [u8], header: Header, payload: &[u8], sum: u32) -> usize
    requires payload_in_bounds { 64 + round64 (length payload.now) ≤ length buf.old }
    requires sum_value { sum ≡ crc_of payload.now }
    ensures answer { result ≡ length (segment header.kind header.flags header.id header.timestamp payload.now) }
    ensures buf { buf.new ≡ over buf.old 0
        (segment header.kind header.flags header.id header.timestamp payload.now) }
{
    let len = payload.len();
    let body = 64;
    let padding = body + len;
    let end = body + octets::round_up(len);
    let hash = crate::hash_by(sum);
    put_header(&mut *buf, header, len, hash);
    octets::copy(&mut buf[body..], payload);
    octets::clear(&mut buf[padding..end]);
    end
}
