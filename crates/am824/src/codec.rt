ghost use Rattle.std.specs.Prelude.{◌≡◌};
ghost use Rattle.am824.specs.Codes.{code};
ghost use Rattle.am824.specs.Reading.{quadlet};
ghost use Rattle.faults.specs.Units.{unused as unused_at};
ghost use Rattle.kinds.specs.Nibbles.{low};

use faults::{UnitCause, UnitFault};
use kinds::{Bits24, Nibble};
use quadlets::{Am824Unit, Marker};

/// The four bytes of a unit.
pub fn encode(unit: Am824Unit) -> [u8; 4]
    ensures { result ≡ code unit }
{
    match unit {
        Am824Unit::Subframe {
            marker,
            flags,
            bits,
        } => {
            let [high, middle, low] = bits.to_bytes();
            let label = 16 * u8::from(marker) + u8::from(flags);
            [label, high, middle, low]
        }
        Am824Unit::Raw24(bits) => {
            let [high, middle, low] = bits.to_bytes();
            [0x40, high, middle, low]
        }
        Am824Unit::Raw20(upper, lower) => {
            let [high, low] = upper.to_be_bytes();
            [0x41, high, low, 16 * u8::from(lower)]
        }
        Am824Unit::Raw16(upper) => {
            let [high, low] = upper.to_be_bytes();
            [0x42, high, low, 0]
        }
        Am824Unit::Midi0 => [0x80, 0, 0, 0],
        Am824Unit::Midi1(x) => [0x81, x, 0, 0],
        Am824Unit::Midi2(x, y) => [0x82, x, y, 0],
        Am824Unit::Midi3(x, y, z) => [0x83, x, y, z],
    }
}

/// A subframe whose label has `flags` for its low four bits.
fn subframe(marker: Marker, flags: u8, bits: Bits24) -> Am824Unit
    ensures { result ≡ Am824Unit.Subframe marker (low flags) bits }
{
    Am824Unit::Subframe {
        marker,
        flags: Nibble::low(flags),
        bits,
    }
}

/// The fault of a MIDI unit whose byte at a place should be zero.
fn unused(place: u16) -> UnitFault
    ensures { result ≡ unused_at place }
{
    UnitFault {
        cause: UnitCause::Unused,
        place,
    }
}

/// The unit whose quadlet four bytes are, or why they are none.
pub fn decode(a: u8, b: u8, c: u8, d: u8) -> Result<Am824Unit, UnitFault>
    ensures { result ≡ quadlet a b c d }
{
    // A line for each range of labels, as the format has them.
    match a {
        0x00..=0x0f => Ok(subframe(Marker::Second, a, Bits24::from_bytes(b, c, d))),
        0x10..=0x1f => Ok(subframe(Marker::First, a, Bits24::from_bytes(b, c, d))),
        0x30..=0x3f => Ok(subframe(Marker::Start, a, Bits24::from_bytes(b, c, d))),
        0x40 => Ok(Am824Unit::Raw24(Bits24::from_bytes(b, c, d))),
        0x41 if d % 16 == 0 => Ok(Am824Unit::Raw20(
            u16::from_be_bytes([b, c]),
            Nibble::low(d / 16),
        )),
        0x42 if d == 0 => Ok(Am824Unit::Raw16(u16::from_be_bytes([b, c]))),
        0x41 | 0x42 => Err(UnitFault::PADDING),
        0x80 if b != 0 => Err(unused(1)),
        0x80 | 0x81 if c != 0 => Err(unused(2)),
        0x80 | 0x81 | 0x82 if d != 0 => Err(unused(3)),
        0x80 => Ok(Am824Unit::Midi0),
        0x81 => Ok(Am824Unit::Midi1(b)),
        0x82 => Ok(Am824Unit::Midi2(b, c)),
        0x83 => Ok(Am824Unit::Midi3(b, c, d)),
        _ => Err(UnitFault::LABEL),
    }
}
