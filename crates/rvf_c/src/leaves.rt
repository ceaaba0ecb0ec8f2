// Checksums, varints and id maps.
ghost use Rattle.std.specs.Prelude.{◌≡◌};
ghost use Rattle.answers.specs.Answer.{number, out_of};
ghost use Rattle.answers.specs.Write.{wrote_answer, write_answer, write_buffer};
ghost use Rattle.crc32c.specs.Crc.{crc_of};
ghost use Rattle.varint.specs.Varint.{varint_of, varint_answer, read_varint};
ghost use Rattle.idmap.specs.Encode.{map_bytes, map_bad};
ghost use Rattle.idmap.specs.Decode.{map_of, read_answer, read_buffer};

use varint::Varint;

// CRC32C of all bytes.
#[unsafe(no_mangle)]
pub extern "C" fn rvf_crc32c(bytes: &[u8]) -> u32
    ensures { result ≡ crc_of bytes.now }
{
    crc32c::checksum(bytes)
}

// The varint at the front: value and length, or 5.
#[unsafe(no_mangle)]
pub extern "C" fn rvf_varint_read(bytes: &[u8], out: &mut [u64; 2]) -> u32
    ensures number { result ≡ number (varint_answer (read_varint bytes.now)) }
    ensures values { out.new ≡ out_of out.old
        (varint_answer (read_varint bytes.now)) }
{
    match varint::read(bytes) {
        Err(refusal) => refusal.number(),
        Ok(Varint { value, length }) => {
            out[0] = value;
            out[1] = length as u64;
            0
        }
    }
}

// A number's varint at the front of a buffer: its length, or 9.
#[unsafe(no_mangle)]
pub extern "C" fn rvf_varint_write(buffer: &mut [u8], value: u64, out: &mut [u64; 1]) -> u32
    ensures number { result ≡ number (wrote_answer (write_answer 0 (varint_of value) buffer.old)) }
    ensures buffer { buffer.new ≡ write_buffer 0 (varint_of value) buffer.old }
    ensures values { out.new ≡ out_of out.old
        (wrote_answer (write_answer 0 (varint_of value) buffer.old)) }
{
    let written = varint::write::write(buffer, value);
    crate::values::lay_length(written, out)
}

// The ids of a map of `count` ids at the front of the bytes, and the map's length: 5, then 9.
#[unsafe(no_mangle)]
pub extern "C" fn rvf_idmap_read(
    bytes: &[u8],
    count: u64,
    ids: &mut [u64],
    out: &mut [u64; 1],
) -> u32
    ensures number { result ≡ number
        (wrote_answer (read_answer (map_of count bytes.now) ids.old)) }
    ensures ids { ids.new ≡ read_buffer (map_of count bytes.now) ids.old }
    ensures values { out.new ≡ out_of out.old
        (wrote_answer (read_answer (map_of count bytes.now) ids.old)) }
{
    let read = idmap_read::read(bytes, count, ids);
    crate::values::lay_length(read, out)
}

// The map of ids at the front of a buffer: its length, or 14, then 9.
#[unsafe(no_mangle)]
pub extern "C" fn rvf_idmap_write(
    buffer: &mut [u8],
    ids: &[u64],
    encoding: u64,
    interval: u64,
    out: &mut [u64; 1],
) -> u32
    ensures number { result ≡ number (wrote_answer (write_answer
        (map_bad ids.now encoding interval)
        (map_bytes ids.now encoding interval)
        buffer.old)) }
    ensures buffer { buffer.new ≡ write_buffer
        (map_bad ids.now encoding interval)
        (map_bytes ids.now encoding interval) buffer.old }
    ensures values { out.new ≡ out_of out.old (wrote_answer (write_answer
        (map_bad ids.now encoding interval)
        (map_bytes ids.now encoding interval)
        buffer.old)) }
{
    let mapped = idmap_write::write(buffer, ids, encoding, interval);
    crate::values::lay_length(mapped, out)
}
