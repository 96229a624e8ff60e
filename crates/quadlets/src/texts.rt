ghost use Rattle.std.specs.Prelude.{◌≡◌, Some};
ghost use Rattle.std.specs.Fmt.{WritesOnOk};
ghost use Rattle.quadlets.specs.Texts.{marker_text, sample_text, text};

use crate::marker::Marker;
use crate::unit::Am824Unit;
use kinds::Bits24;
use std::fmt;

impl Marker {
    /// The marker in words.
    fn name(self) -> &'static str
        ensures { result.now ≡ marker_text self }
    {
        match self {
            Marker::Second => "second subframe",
            Marker::First => "first subframe",
            Marker::Start => "first subframe of frame 0",
        }
    }
}

impl fmt::Display for Marker {
    ghost output = { λ marker. Some (marker_text marker) };

    fn fmt<W: fmt::Write>(&self, f: &mut fmt::Formatter<W>) -> fmt::Result {
        f.write_str(self.name())
    }
}

/// Writes the length of a sample in bits, and its number.
fn write_sample<W: fmt::Write>(f: &mut fmt::Formatter<W>, length: u8, bits: Bits24) -> fmt::Result
    ensures { WritesOnOk W.write_str_gives f.old result (sample_text length bits) f.new }
{
    write!(f, "{length}-bit sample {bits}")
}

impl fmt::Display for Am824Unit {
    ghost output = { λ unit. Some (text unit) };

    fn fmt<W: fmt::Write>(&self, f: &mut fmt::Formatter<W>) -> fmt::Result {
        match *self {
            Am824Unit::Subframe {
                marker,
                flags,
                bits,
            } => {
                write!(
                    f,
                    "{marker}, flags {}, bits {}",
                    u8::from(flags),
                    bits.field()
                )
            }
            Am824Unit::Raw24(bits) => write_sample(f, 24, bits),
            Am824Unit::Raw20(upper, lower) => write_sample(
                f,
                20,
                Bits24::joined(upper, 16 * u8::from(lower)),
            ),
            Am824Unit::Raw16(upper) => write_sample(f, 16, Bits24::joined(upper, 0)),
            Am824Unit::Midi0 => f.write_str("no MIDI byte"),
            Am824Unit::Midi1(x) => write!(f, "MIDI byte {x}"),
            Am824Unit::Midi2(x, y) => write!(f, "MIDI bytes {x} {y}"),
            Am824Unit::Midi3(x, y, z) => write!(f, "MIDI bytes {x} {y} {z}"),
        }
    }
}
