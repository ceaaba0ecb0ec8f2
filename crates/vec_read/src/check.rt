// The check of a VEC_SEG payload, in the order of document 01: 5, 6 or 7 where it is not sound.
ghost use Rattle.std.specs.Prelude.{◌≡◌};
ghost use Rattle.answers.specs.Answer.{refused_by};
ghost use Rattle.vecseg.specs.Payload.{check_of};

use answers::Refusal;

// The walk over the blocks with no checksum of the whole and no search.
pub fn check(s: &[u8]) -> Result<(), Refusal>
    ensures { refused_by result ≡ check_of s.now }
{
    crate::walk::walk(s, None, false)?;
    Ok(())
}
