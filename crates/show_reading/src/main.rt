// Reads a file from standard input, at most 65,536 bytes, and prints what is read out of it: the payloads of two
// segments, and components of vectors by their kind; or `refused n`. A payload is a part of the lent file, not a copy.
#![tactic(auto)]

use answers::Refusal;
use std::io;
use vecseg::Component;

fn refused(rt: &impl Print, refusal: Refusal) -> io::Result<()> {
    let number = refusal.number();
    println!(rt; "refused {number}")
}

// A payload's length on a line, then its bytes as they are.
fn print_payload(rt: &impl Print, part: &[u8]) -> io::Result<()> {
    let length = part.len();
    println!(rt; "payload {length}")?;
    rt.write_all(part)
}

fn show_payload(rt: &impl Print, file: &[u8], id: u64) -> io::Result<()> {
    match lookup::payload::payload(file, id) {
        Ok(part) => print_payload(rt, part),
        Err(refusal) => refused(rt, refusal),
    }
}

// A float by the number of its bits, which is exact. A NaN may have any of many, so it has a word.
fn print_float(rt: &impl Print, value: f32) -> io::Result<()> {
    if value.is_nan() {
        return println!(rt; "float nan");
    }
    let bits = value.to_bits();
    println!(rt; "float {bits}")
}

fn print_component(rt: &impl Print, value: Component) -> io::Result<()> {
    match value {
        Component::Float(float) => print_float(rt, float),
        Component::Signed(signed) => println!(rt; "signed {signed}"),
        Component::Unsigned(unsigned) => println!(rt; "unsigned {unsigned}"),
    }
}

fn show_component(rt: &impl Print, file: &[u8], id: u64, index: u64) -> io::Result<()> {
    match lookup::vector::component(file, id, index) {
        Ok(value) => print_component(rt, value),
        Err(refusal) => refused(rt, refusal),
    }
}

// The note and a segment that is not there; a component of each kind, and one behind a vector's last.
fn show(rt: &impl Print, file: &[u8]) -> io::Result<()> {
    show_payload(rt, file, 0)?;
    show_payload(rt, file, 9)?;
    show_component(rt, file, 1, 0)?;
    show_component(rt, file, 3, 0)?;
    show_component(rt, file, 4, 0)?;
    show_component(rt, file, 4, 2)
}

// One byte more than the limit is read, so that a longer file shows as one: it is refused as the lister refuses it.
fn main(rt: HostRuntime) -> io::Result<()> {
    let mut file = [0u8; 65537];
    let n = input::read_full(&mut rt.reader(), &mut file)?;
    if n > 65536 {
        return refused(&rt, Refusal::FileTooLong);
    }
    show(&rt, &file[..n])
}
