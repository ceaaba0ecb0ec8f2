// The lister's whole text about a file, written at the front of a buffer.
ghost use Rattle.std.specs.Prelude.{◌≤◌, length};
ghost use Rattle.octets.specs.text.Written.{Written};
ghost use Rattle.manifest.specs.Opening.{opened, tried};
ghost use Rattle.reading.specs.Listing.{list_found, list_text};
ghost use Rattle.listing.specs.text.Whole.{OpensAt};

use opening::FileManifest;
use opening::directory::Directory;

// The list of a file that opens. The heading takes 34 bytes, a line at most 97 and the last line at most 52.
fn put_list(text: &mut [u8], directory: &Directory) -> usize
    requires in_bounds { 102400 ≤ length text.old }
    requires opens_at { OpensAt directory.now.file.now directory.now.manifest.offset
        directory.now.manifest.end directory.now.manifest.count directory.now.manifest.tried }
    ensures { Written text.old text.new 0
        (list_found (tried directory.now.file.now (opened directory.now.file.now))
        (opened directory.now.file.now)) result }
{
    let FileManifest {
        offset,
        end,
        count: _,
        tried: boundaries,
    } = directory.manifest;
    let headed = octets::text::put_bytes(text, 0, b"id type offset length state check\n");
    let listed = crate::entries::put_entries(text, headed, directory);
    let last = crate::line::put_segment(text, listed, directory.file, offset, b"manifest");
    let ended = octets::text::put_number(text, last, b"end ", end as u64, b" tried ");
    octets::text::put_number(text, ended, b"", boundaries as u64, b"\n")
}

// What the lister prints about a file.
pub fn put_text(text: &mut [u8], file: &[u8]) -> usize
    requires { 102400 ≤ length text.old }
    ensures { Written text.old text.new 0 (list_text file.now) result }
{
    if file.len() > 65536 {
        return octets::text::put_number(text, 0, b"refused ", 1, b"\n");
    }
    let mut offsets = [0u64; segment::index::MOST];
    match opening::directory::directory_of(file, &mut offsets) {
        Err(refusal) => octets::text::put_number(
            text,
            0,
            b"refused ",
            refusal.number() as u64,
            b"\n",
        ),
        Ok(directory) => put_list(text, &directory),
    }
}
