ghost use Rattle.std.specs.Prelude.{◌≡◌};
ghost use Rattle.kinds.specs.Codes.{laid_answer, laid};

use faults::UnitFault;

/// Lays the bytes of a code at the front of `out` and leaves the rest, or refuses and leaves all.
pub fn lay<const N: usize>(code: [u8; N], out: &mut [u8]) -> Result<(), UnitFault>
    ensures answer { result ≡ laid_answer N out.old }
    ensures bytes { out.new ≡ laid N code.entry out.old }
{
    *out.first_chunk_mut().ok_or(UnitFault::ROOM)? = code;
    Ok(())
}
