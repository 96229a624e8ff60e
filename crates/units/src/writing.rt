ghost use Rattle.std.specs.Prelude.{◌≡◌, ◌*◌, length, Ok, OnOk};
ghost use Rattle.std.specs.List.{flat_map};
ghost use Rattle.units.specs.Rows.{row};
ghost use Rattle.kinds.specs.Codes.{laid_answer, laid};

use faults::UnitFault;
use kinds::Kind;

/// Lays the codes of units one after another at the front of `out` and leaves the rest, or refuses
/// and leaves all. What it lays is read back as these units.
pub fn write_row<K: Kind>(units: &[K::Unit], out: &mut [u8]) -> Result<(), UnitFault>
    ensures answer { result ≡ laid_answer (4 * K.size * length units.now) out.old }
    ensures bytes { out.new ≡ laid (4 * K.size * length units.now) (flat_map K.code units.now) out.old }
    ensures back { OnOk result (row (4 * K.size) K.heard (length units.now) out.new ≡ Ok units.now) }
{
    let step = 4 * K::size() as usize;
    if out.len() / step < units.len() {
        return Err(UnitFault::ROOM);
    }
    // By place: after `chunks_mut` a proof knows no byte of `out`.
    for (i, unit) in units.iter().enumerate() {
        K::write(*unit, &mut out[step * i..])?;
    }
    Ok(())
}
