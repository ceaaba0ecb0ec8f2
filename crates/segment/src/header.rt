// The 64 bytes of a segment's header: sound by themselves, and with an id that may follow.
ghost use Rattle.std.specs.Prelude.{◌≡◌, length};
ghost use Rattle.segment.specs.Header.{head_sound};
ghost use Rattle.segment.specs.Step.{least_id};

use crate::fields;

// Whether the 64 bytes of a header are sound by themselves: all but the end and the padding.
pub fn header_sound(h: &[u8], prev: Option<u64>) -> bool
    requires { length h.now ≡ 64 }
    ensures { result ≡ head_sound (least_id prev) h.now }
{
    octets::same(&h[..4], &crate::MAGIC)
        && h[fields::VERSION] == 1
        && crate::kind_held(h[fields::KIND])
        && crate::flags_held(octets::le::u16_at(h, fields::FLAGS))
        && h[fields::CHECKSUM_ALGO] == 0
        && octets::is_zero(&h[fields::RESERVED..fields::HASH])
        && octets::is_zero(&h[fields::UNCOMPRESSED..fields::HEADER_SIZE])
        && octets::numbers::follows(prev, octets::le::u64_at(h, fields::ID))
}
