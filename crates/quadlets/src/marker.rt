ghost use Rattle.std.specs.Prelude.{◌≡◌};
ghost use Rattle.quadlets.specs.Markers.{marked, made};

use faults::UnitFault;

/// Which subframe of which frame a label marks.
#[derive(Clone, Copy, PartialEq, Eq, Debug)]
pub enum Marker {
    /// The second subframe of any frame.
    Second,
    /// The first subframe of one of the frames 1 to 191.
    First,
    /// The first subframe of frame 0.
    Start,
}

/// The upper half of the label that a marker makes.
impl From<Marker> for u8 {
    ghost from_gives = { λ marker r. r ≡ marked marker };

    fn from(marker: Marker) -> u8 {
        match marker {
            Marker::Second => 0,
            Marker::First => 1,
            Marker::Start => 3,
        }
    }
}

/// The marker that makes the upper half of a label.
impl TryFrom<u8> for Marker {
    type Error = UnitFault;

    ghost try_from_gives = { λ upper r. r ≡ made upper };

    fn try_from(upper: u8) -> Result<Marker, UnitFault> {
        match upper {
            0 => Ok(Marker::Second),
            1 => Ok(Marker::First),
            3 => Ok(Marker::Start),
            _ => Err(UnitFault::FIELD),
        }
    }
}
