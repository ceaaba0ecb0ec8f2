// Reads an id map from standard input, at most 65,536 bytes, and prints its length and its ids, one a line; or
// `refused n`.
#![tactic(auto)]

use answers::Refusal;
use std::io;

// Kept: `show_reading` has the same three lines; a crate for them would be longer (no plainer).
fn refused(rt: &impl Print, refusal: Refusal) -> io::Result<()> {
    let number = refusal.number();
    println!(rt; "refused {number}")
}

fn list(rt: &impl Print, ids: &[u64]) -> io::Result<()> {
    for id in ids {
        println!(rt; "{id}")?;
    }
    Ok(())
}

fn show(rt: &impl Print, bytes: &[u8]) -> io::Result<()> {
    if bytes.len() < 7 {
        return refused(rt, Refusal::Layout);
    }
    let count = octets::le::u32_at(bytes, 3) as usize;
    let mut ids = [0u64; 4096];
    match idmap_read::read(bytes, count as u64, &mut ids) {
        Err(refusal) => refused(rt, refusal),
        Ok(n) => {
            println!(rt; "length {n}")?;
            list(rt, &ids[..count.min(ids.len())])
        }
    }
}

fn main(rt: HostRuntime) -> io::Result<()> {
    let mut buffer = [0u8; 65536];
    let n = input::read_full(&mut rt.reader(), &mut buffer)?;
    show(&rt, &buffer[..n])
}
