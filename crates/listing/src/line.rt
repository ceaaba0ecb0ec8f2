// A line of the lister's text: a segment's columns, its check and its state.
ghost use Rattle.std.specs.Prelude.{◌++◌, ◌+◌, ◌≤◌, length};
ghost use Rattle.octets.specs.text.Written.{Written};
ghost use Rattle.reading.specs.Listing.{column, check_word};
ghost use Rattle.listing.specs.line.Lines.{text_line_at};
ghost use Rattle.segment.specs.Header.{length_at};

// Two columns.
fn put_columns(text: &mut [u8], at: usize, x: u64, y: u64) -> usize
    requires { at + 42 ≤ length text.old }
    ensures text { Written text.old text.new at (column x ++ column y) result }
    ensures bound { result ≤ at + 42 }
{
    let next = octets::text::put_number(text, at, b"", x, b" ");
    octets::text::put_number(text, next, b"", y, b" ")
}

// Whether a segment is whole, as the end of its line.
fn put_check(text: &mut [u8], at: usize, whole: bool) -> usize
    requires { at + 5 ≤ length text.old }
    ensures text { Written text.old text.new at (check_word whole) result }
    ensures bound { result ≤ at + 5 }
{
    if whole {
        return octets::text::put_bytes(text, at, b" ok\n");
    }
    octets::text::put_bytes(text, at, b" bad\n")
}

// The line of the segment whose header begins at p, with the word for its state.
pub fn put_segment(text: &mut [u8], at: usize, file: &[u8], p: usize, word: &[u8]) -> usize
    requires p_in_bounds { p + (64 + length_at file.now p) ≤ length file.now }
    requires at_in_bounds { (at + 97 ≤ length text.old) × (length word.now ≤ 8) }
    ensures text { Written text.old text.new at
        (text_line_at file.now p word.now) result }
    ensures bound { result ≤ at + 97 }
{
    let length = octets::le::u64_at(file, p + segment::fields::LENGTH);
    let kind = file[p + segment::fields::KIND] as u64;
    let named = put_columns(
        text,
        at,
        octets::le::u64_at(file, p + segment::fields::ID),
        kind,
    );
    let placed = put_columns(text, named, p as u64, length);
    let stated = octets::text::put_bytes(text, placed, word);
    put_check(text, stated, segment::is_whole(file, p, length as usize))
}
