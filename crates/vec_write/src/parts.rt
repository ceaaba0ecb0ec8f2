// The parts of a one-block payload written: the directory of one line, and the block with its padding.
ghost use Rattle.std.specs.Prelude.{◌≡◌, ◌++◌, ◌+◌, ◌≤◌, ◌<◌, length};
ghost use Rattle.octets.specs.Over.{over};
ghost use Rattle.octets.specs.Round.{round64, padding};
ghost use Rattle.idmap.specs.Encode.{map_bytes};
ghost use Rattle.vecseg.specs.Writer.{block_bytes, directory};

use idmap_write::Map;

// The directory of one block, which begins at 64.
pub fn put_directory(buf: &mut [u8], count: u64, dim: u64, dtype: u64, tier: u64)
    requires in_bounds { 64 ≤ length buf.old }
    requires dtype_bound { (dtype < 256) × (tier < 256) }
    ensures { buf.new ≡ over buf.old 0 (directory count dim dtype tier ++ padding 16) }
{
    octets::le::put(buf, 0, 4, 1);
    octets::le::put(buf, 4, 4, 64);
    octets::le::put(buf, 8, 4, count);
    octets::le::put(buf, 12, 2, dim);
    octets::le::put(buf, 14, 1, dtype);
    octets::le::put(buf, 15, 1, tier);
    octets::clear_part(buf, 16, 64);
}

// The block at the front of a buffer, with its padding: columns, id map, the checksum of both, which end at `end`.
pub fn put_block(buf: &mut [u8], columns: &[u8], map: &Map, end: usize)
    requires end_value { end ≡ length columns.now
        + length (map_bytes map.now.ids.now map.now.encoding map.now.interval) }
    requires end_in_bounds { round64 (end + 4) ≤ length buf.old }
    ensures { buf.new ≡ over buf.old 0
        (block_bytes columns.now (map_bytes map.now.ids.now map.now.encoding map.now.interval) ++ padding (end + 4)) }
{
    let summed = end + 4;
    let filled = octets::round_up(summed);
    octets::copy(buf, columns);
    let at = columns.len();
    map.put(&mut buf[at..]);
    let crc = crc32c::checksum(&buf[..end]);
    octets::le::put(buf, end, 4, crc as u64);
    octets::clear_part(buf, summed, filled);
}
