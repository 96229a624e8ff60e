ghost use Rattle.samples.specs.Makings.{Made, no_subframe, subframe_bytes, no_midi, midi_bytes};
ghost use Rattle.samples.specs.Samples.{no_sample, raw_bytes};

use crate::sample::Sample;
use faults::UnitFault;
use kinds::{Bits24, Nibble};
use quadlets::{Am824Unit, Marker};

// Bare numbers, as callers have them; what is wider than its field is refused.
/// A subframe of the upper half of its label (0, 1 or 3), the lower half, and its 24 bits.
pub fn subframe(upper: u8, lower: u8, bits: u32) -> Result<Am824Unit, UnitFault>
    ensures { Made (no_subframe upper lower bits) (subframe_bytes upper lower bits) result }
{
    Ok(Am824Unit::Subframe {
        marker: Marker::try_from(upper)?,
        flags: Nibble::try_from(lower)?,
        bits: Bits24::new(bits)?,
    })
}

/// A raw sample of a length code, 0, 1 or 2 for 24, 20 or 16 bits, and a number.
pub fn raw(code: u8, number: i32) -> Result<Am824Unit, UnitFault>
    ensures { Made (no_sample code number) (raw_bytes code number) result }
{
    Ok(Sample::new(code, number)?.unit())
}

/// A MIDI unit of a count and three bytes, those beyond the count zero.
pub fn midi(count: u8, x: u8, y: u8, z: u8) -> Result<Am824Unit, UnitFault>
    ensures { Made (no_midi count x y z) (midi_bytes count x y z) result }
{
    // A case for each count of MIDI bytes.
    match (count, x, y, z) {
        (0, 0, 0, 0) => Ok(Am824Unit::Midi0),
        (1, _, 0, 0) => Ok(Am824Unit::Midi1(x)),
        (2, _, _, 0) => Ok(Am824Unit::Midi2(x, y)),
        (3, _, _, _) => Ok(Am824Unit::Midi3(x, y, z)),
        _ => Err(UnitFault::FIELD),
    }
}
