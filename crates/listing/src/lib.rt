// The lister: what it prints about a file, as text at the front of a buffer.
#![tactic(auto)]

pub mod entries;
pub mod line;
pub mod text;

ghost use Rattle.std.specs.Prelude.{◌≡◌};
ghost use Rattle.answers.specs.Answer.{numbered};
ghost use Rattle.answers.specs.Write.{write_answer, write_buffer};
ghost use Rattle.reading.specs.Listing.{list_text};

use answers::Refusal;

// The text about a file at the front of a buffer, and its length; 9 where there is no room. It is put together in an
// array of our own, since a refusal changes no byte.
pub fn list(file: &[u8], buffer: &mut [u8]) -> Result<usize, Refusal>
    ensures answer { numbered result ≡ write_answer 0 (list_text file.now) buffer.old }
    ensures buffer { buffer.new ≡ write_buffer 0 (list_text file.now) buffer.old }
{
    let mut text = [0u8; 102400];
    let n = crate::text::put_text(&mut text, file);
    if n > buffer.len() {
        return Err(Refusal::NoRoom);
    }
    octets::copy(buffer, &text[..n]);
    Ok(n)
}
