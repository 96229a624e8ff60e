ghost use Rattle.std.specs.Prelude.{◌≡◌, Some};
ghost use Rattle.faults.specs.Refusals.{text};
ghost use Rattle.faults.specs.Units.{told};

use crate::refusals::Refusal;
use std::error::Error;
use std::fmt;

/// Why a unit cannot be written, read or made.
#[derive(Clone, Copy, PartialEq, Eq, Debug)]
pub enum UnitCause {
    /// The bytes to write to are fewer than the unit has.
    Room,
    /// The bytes to read from are fewer than the unit has.
    Cut,
    /// The label byte is none that a unit can have.
    Label,
    /// The padding bits of a sample are not zero.
    Padding,
    /// A MIDI byte beyond the count is not zero.
    Unused,
    /// A number lies outside its field, or what has to be zero is not.
    Field,
}

/// Why a unit is refused, and the place in the unit, counted in bytes from 0.
#[derive(Clone, Copy, PartialEq, Eq, Debug)]
pub struct UnitFault {
    pub cause: UnitCause,
    pub place: u16,
}

impl UnitFault {
    pub const ROOM: UnitFault = UnitFault {
        cause: UnitCause::Room,
        place: 0,
    };

    pub const CUT: UnitFault = UnitFault {
        cause: UnitCause::Cut,
        place: 0,
    };

    pub const LABEL: UnitFault = UnitFault {
        cause: UnitCause::Label,
        place: 0,
    };

    pub const PADDING: UnitFault = UnitFault {
        cause: UnitCause::Padding,
        place: 1,
    };

    pub const FIELD: UnitFault = UnitFault {
        cause: UnitCause::Field,
        place: 0,
    };

    /// The number and the place by which the fault is told.
    pub fn refusal(&self) -> Refusal
        ensures { result ≡ told self.now }
    {
        let number = match self.cause {
            UnitCause::Room => 6,
            UnitCause::Cut => 7,
            UnitCause::Label => 14,
            UnitCause::Padding => 15,
            UnitCause::Unused => 16,
            UnitCause::Field => 17,
        };
        let place = self.place as u32;
        Refusal { number, place }
    }
}

impl fmt::Display for UnitFault {
    ghost output = { λ fault. Some (text (told fault)) };

    fn fmt<W: fmt::Write>(&self, f: &mut fmt::Formatter<W>) -> fmt::Result {
        self.refusal().fmt(f)
    }
}

impl Error for UnitFault {}
