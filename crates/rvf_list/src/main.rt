// Reads a file from standard input, at most 65,536 bytes, and prints its directory as a list, or `refused n`. One
// byte more than the limit is read, so that a longer file shows as one.
#![tactic(auto)]

use std::io;

fn main(rt: HostRuntime) -> io::Result<()> {
    let mut file = [0u8; 65537];
    let mut text = [0u8; 102400];
    let n = input::read_full(&mut rt.reader(), &mut file)?;
    match listing::list(&file[..n], &mut text) {
        // The buffer has room for the longest list.
        Err(_) => Ok(()),
        Ok(length) => rt.write_all(&text[..length]),
    }
}
