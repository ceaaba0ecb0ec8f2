// The check of a batch, which must have the form whole before an append takes anything of it.
ghost use Rattle.std.specs.Prelude.{◌≡◌, true, ◌<◌, ◌≤◌, Ok, Err, IfOk, length, get_or};
ghost use Rattle.answers.specs.Answer.{refused_by};
ghost use Rattle.batch.specs.Form.{line_held, batch_held, body_count, bodies_of};
ghost use Rattle.batch.specs.Lines.{no_body};
ghost use Rattle.append.specs.form.Number.{form_number};

use answers::Refusal;

// Whether a line of a batch has the form, where its body is to begin at `at`. A manifest is no body: an append writes
// it itself.
fn line_held(line: &[u8], at: usize) -> bool
    requires { length line.now ≡ 16 }
    ensures { result ≡ line_held at line.now }
{
    if !segment::kind_held(line[0]) {
        return false;
    }
    if segment::kind_reserved(line[0]) {
        return false;
    }
    if line[0] == manifest::fields::KIND {
        return false;
    }
    if line[1] != 0 {
        return false;
    }
    if !segment::flags_held(octets::le::u16_at(line, 2)) {
        return false;
    }
    if octets::le::u32_at(line, 4) as usize != at {
        return false;
    }
    octets::is_zero(&line[12..16])
}

// Whether a batch has the form. The lengths of at most 16 bodies are added up without a test between: the sum fits.
pub fn check(batch: &[u8]) -> bool
    ensures { result ≡ batch_held batch.now }
{
    if batch.len() < 16 {
        return false;
    }
    if batch.len() > answers::limits::MAX_BATCH {
        return false;
    }
    let bodies = octets::le::u32_at(batch, 0) as usize;
    if bodies > answers::limits::MAX_BODIES {
        return false;
    }
    if !octets::is_zero(&batch[4..16]) {
        return false;
    }
    let mut at = 16 + 16 * bodies;
    if batch.len() < at {
        return false;
    }
    for i in 0..bodies {
        let line = 16 + 16 * i;
        let end = line + 16;
        if !line_held(&batch[line..end], at) {
            return false;
        }
        at += octets::le::u32_at(batch, line + 8) as usize;
    }
    at == batch.len()
}

// A batch that has the form.
#[derive(Clone, Copy)]
pub struct Batch<'a> {
    pub bytes: &'a [u8],
    ghost held: { batch_held bytes.now ≡ true },
}

impl<'a> Batch<'a> {
    // The batch that some bytes are; 10 where they have not the form whole.
    pub fn read(bytes: &'a [u8]) -> Result<Batch<'a>, Refusal>
        ensures answer { refused_by result ≡ form_number bytes.now }
        ensures bytes { IfOk result (λ batch. batch.bytes.now ≡ bytes.now) }
    {
        if !check(bytes) {
            return Err(Refusal::Batch);
        }
        Ok(Batch { bytes })
    }

    // How many bodies it has.
    pub fn count(&self) -> usize
        ensures count { result ≡ body_count self.now.bytes.now }
        ensures bound { result ≤ 16 }
    {
        octets::le::u32_at(self.bytes, 0) as usize
    }

    // The type of a body's segment, and its flags.
    pub fn kind(&self, j: usize) -> u8
        requires { j < body_count self.now.bytes.now }
        ensures { result ≡ (get_or (bodies_of self.now.bytes.now) j no_body).kind }
    {
        self.bytes[16 + 16 * j]
    }

    pub fn flags(&self, j: usize) -> u16
        requires { j < body_count self.now.bytes.now }
        ensures { result ≡ (get_or (bodies_of self.now.bytes.now) j no_body).flags }
    {
        octets::le::u16_at(self.bytes, 16 + 16 * j + 2)
    }

    // A body: the part of the batch that its line says.
    pub fn body(&self, j: usize) -> &'a [u8]
        requires { j < body_count self.now.bytes.now }
        ensures bytes { result.now ≡ (get_or (bodies_of self.now.bytes.now) j no_body).payload }
        ensures bound { length result.now ≤ 1048576 }
    {
        let line = 16 + 16 * j;
        let from = octets::le::u32_at(self.bytes, line + 4) as usize;
        let end = from + octets::le::u32_at(self.bytes, line + 8) as usize;
        &self.bytes[from..end]
    }
}
