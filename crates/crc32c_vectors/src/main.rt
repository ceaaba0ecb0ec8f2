// The published vectors of CRC32C: those of RFC 3720, B.4, and the check value of the usual nine digits. A line for
// each: its name, and `ok` or `differs`.
#![tactic(auto)]

use std::io;

fn show(rt: &impl Print, name: &str, data: &[u8], expected: u32) -> io::Result<()> {
    let says = if crc32c::checksum(data) == expected {
        "ok"
    } else {
        "differs"
    };
    println!(rt; "{name} {says}")
}

fn main(rt: HostRuntime) -> io::Result<()> {
    show(&rt, "nine digits", b"123456789", 0xE306_9283)?;
    show(&rt, "32 bytes of 00", &[0u8; 32], 0x8A91_36AA)?;
    show(&rt, "32 bytes of FF", &[255u8; 32], 0x62A8_AB43)?;
    let rising =
        b"\x00\x01\x02\x03\x04\x05\x06\x07\x08\x09\x0A\x0B\x0C\x0D\x0E\x0F\x10\x11\x12\x13\x14\x15\x16\x17\x18\x19\x1A\x1B\x1C\x1D\x1E\x1F";
    show(&rt, "32 rising bytes", rising, 0x46DD_794E)?;
    let falling =
        b"\x1F\x1E\x1D\x1C\x1B\x1A\x19\x18\x17\x16\x15\x14\x13\x12\x11\x10\x0F\x0E\x0D\x0C\x0B\x0A\x09\x08\x07\x06\x05\x04\x03\x02\x01\x00";
    show(&rt, "32 falling bytes", falling, 0x113F_DB5C)?;
    let command =
        b"\x01\xC0\x00\x00\x00\x00\x00\x00\x00\x00\x00\x00\x00\x00\x00\x00\x14\x00\x00\x00\x00\x00\x04\x00\x00\x00\x00\x14\x00\x00\x00\x18\x28\x00\x00\x00\x00\x00\x00\x00\x02\x00\x00\x00\x00\x00\x00\x00";
    show(&rt, "SCSI read command", command, 0xD996_3A56)
}
