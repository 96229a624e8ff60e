ghost use Rattle.std.specs.Prelude.{◌≡◌, ◌+◌, ◌*◌, ◌++◌, length};
ghost use Rattle.std.specs.List.{flat_map};
ghost use Rattle.kinds.specs.Codes.{laid_answer, laid};
ghost use Rattle.talkers.specs.Sending.{due};

use faults::UnitFault;
use kinds::Kind;
use units::write_row;

/// How many blocks have arrived by a tick, up to the first that has not.
pub fn due_blocks(arrivals: &[u64], by: u64) -> usize
    ensures { result ≡ due by arrivals.now }
{
    arrivals
        .iter()
        .take_while(|arrival| **arrival <= by)
        .count()
}

/// Lays a header and the codes of units at the front of `bytes` and leaves the rest, or refuses and
/// leaves all.
pub fn write_packet<K: Kind>(
    header: [u8; 8],
    units: &[K::Unit],
    bytes: &mut [u8],
) -> Result<(), UnitFault>
    ensures answer { result ≡ laid_answer (8 + 4 * K.size * length units.now) bytes.old }
    ensures bytes { bytes.new ≡ laid (8 + 4 * K.size * length units.now) (header ++ flat_map K.code units.now) bytes.old }
{
    let (front, rest) = bytes.split_first_chunk_mut().ok_or(UnitFault::ROOM)?;
    write_row::<K>(units, rest)?;
    *front = header;
    Ok(())
}
