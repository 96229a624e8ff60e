ghost use Rattle.std.specs.Prelude.{◌≡◌, Some};
ghost use Rattle.faults.specs.Refusals.{text};
ghost use Rattle.units.specs.Faults.{carried, told};

use faults::{Located, Refusal, UnitFault};
use std::error::Error;
use std::fmt;

/// Why a row is not read.
#[derive(Clone, Copy, PartialEq, Eq, Debug)]
pub enum RowFault {
    /// The caller's list holds fewer units than are asked for.
    List,
    /// The first unit that is refused, by its index.
    Unit(Located<usize, UnitFault>),
}

impl RowFault {
    /// The number and the place by which the fault is told: of a unit, its own.
    pub fn refusal(&self) -> Refusal
        ensures { result ≡ told self.now }
    {
        match self {
            RowFault::List => Refusal {
                number: 12,
                place: 0,
            },
            RowFault::Unit(at) => at.fault.refusal(),
        }
    }
}

impl fmt::Display for RowFault {
    ghost output = { λ fault. Some (text (told fault)) };

    fn fmt<W: fmt::Write>(&self, f: &mut fmt::Formatter<W>) -> fmt::Result {
        self.refusal().fmt(f)
    }
}

impl Error for RowFault {}

impl From<Located<usize, UnitFault>> for RowFault {
    ghost from_gives = { λ fault r. r ≡ carried fault };

    fn from(fault: Located<usize, UnitFault>) -> RowFault {
        RowFault::Unit(fault)
    }
}
