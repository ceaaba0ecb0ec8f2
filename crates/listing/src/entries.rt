// The lister's lines of a manifest's directory.
ghost use Rattle.std.specs.Prelude.{◌+◌, ◌*◌, ◌≤◌, length};
ghost use Rattle.octets.specs.text.Written.{Written};
ghost use Rattle.manifest.specs.Opening.{opened};
ghost use Rattle.reading.specs.Listing.{state_word};
ghost use Rattle.listing.specs.line.Lines.{text_line_at};
ghost use Rattle.listing.specs.entries.Entries.{entry_lines};
ghost use Rattle.segment.specs.Header.{length_at};

use opening::directory::Directory;

// The line of an entry with a state.
fn put_entry(text: &mut [u8], at: usize, file: &[u8], p: usize, state: u8) -> usize
    requires p_in_bounds { p + (64 + length_at file.now p) ≤ length file.now }
    requires at_in_bounds { at + 97 ≤ length text.old }
    ensures text { Written text.old text.new at
        (text_line_at file.now p (state_word state)) result }
    ensures bound { result ≤ at + 97 }
{
    if state == 0 {
        return crate::line::put_segment(text, at, file, p, b"live");
    }
    crate::line::put_segment(text, at, file, p, b"retired")
}

// The lines of all entries of a directory.
pub fn put_entries(text: &mut [u8], at: usize, directory: &Directory) -> usize
    requires { at + 97 * directory.now.manifest.count ≤ length text.old }
    ensures text { Written text.old text.new at
        (entry_lines (opened directory.now.file.now)) result }
    ensures bound { result ≤ at + 97 * directory.now.manifest.count }
{
    let mut end = at;
    for i in 0..directory.manifest.count {
        end = put_entry(
            text,
            end,
            directory.file,
            directory.place(i),
            directory.state(i),
        );
    }
    end
}
