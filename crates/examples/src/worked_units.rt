ghost use Rattle.examples.specs.Units.{MinusSixteen, PaddingRefused, MidiByteRefused, LabelRefused, FourPacked};

use am824::Am824;
use faults::UnitFault;
use kinds::Kind;
use pack::{Pack, PackUnit};
use quadlets::Am824Unit;

/// 41 FF FF F0 is a sample of 20 bits, -16.
pub fn minus_sixteen_in_twenty_bits() -> Result<Am824Unit, UnitFault>
    ensures { MinusSixteen result }
{
    Am824::read(&[0x41, 0xff, 0xff, 0xf0])
}

/// 41 FF FF F8 has a padding bit that is not zero: refused 15 at 1.
pub fn padding_that_is_not_zero() -> Result<Am824Unit, UnitFault>
    ensures { PaddingRefused result }
{
    Am824::read(&[0x41, 0xff, 0xff, 0xf8])
}

/// 81 90 3C 00 counts one MIDI byte and has two: refused 16 at 2.
pub fn midi_byte_beyond_the_count() -> Result<Am824Unit, UnitFault>
    ensures { MidiByteRefused result }
{
    Am824::read(&[0x81, 0x90, 0x3c, 0x00])
}

/// 43 00 00 00 has a label that no unit has: refused 14 at 0.
pub fn unknown_label() -> Result<Am824Unit, UnitFault>
    ensures { LabelRefused result }
{
    Am824::read(&[0x43, 0x00, 0x00, 0x00])
}

/// The pack of 1, -1, -8,388,608 and 8,388,607, and its twelve bytes.
pub fn four_packed_samples() -> Result<PackUnit, UnitFault>
    ensures { FourPacked result }
{
    PackUnit::new(1, -1, -8_388_608, 8_388_607)
}
