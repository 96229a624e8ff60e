use crate::marker::Marker;
use kinds::{Bits24, Nibble};

/// What a quadlet carries: every value is a unit, and no two have the same quadlet.
// A case for each label and each count of MIDI bytes, so that every value is a unit.
#[derive(Clone, Copy, PartialEq, Eq, Debug)]
pub enum Am824Unit {
    /// An IEC 60958 subframe, with the low four bits of its label.
    Subframe {
        marker: Marker,
        flags: Nibble,
        bits: Bits24,
    },
    /// A sample of 24 bits.
    Raw24(Bits24),
    /// The 16 upper and 4 lower bits of a sample of 20 bits.
    Raw20(u16, Nibble),
    /// A sample of 16 bits.
    Raw16(u16),
    Midi0,
    Midi1(u8),
    Midi2(u8, u8),
    Midi3(u8, u8, u8),
}
