ghost use Rattle.std.specs.Prelude.{◌≡◌, Some};
ghost use Rattle.faults.specs.Refusals.{text};
ghost use Rattle.plans.specs.Faults.{told};

use faults::Refusal;
use std::error::Error;
use std::fmt;

/// Why a stream is not planned.
#[derive(Clone, Copy, PartialEq, Eq, Debug)]
pub enum PlanFault {
    /// There is no rate of this sampling frequency code.
    Rate,
    /// A block has no unit, or a packet cannot hold as many blocks as it may have to.
    Dimension,
}

impl PlanFault {
    /// The number by which the fault is told; it has no place.
    pub fn refusal(&self) -> Refusal
        ensures { result ≡ told self.now }
    {
        let number = match self {
            PlanFault::Rate => 1,
            PlanFault::Dimension => 2,
        };
        Refusal { number, place: 0 }
    }
}

impl fmt::Display for PlanFault {
    ghost output = { λ fault. Some (text (told fault)) };

    fn fmt<W: fmt::Write>(&self, f: &mut fmt::Formatter<W>) -> fmt::Result {
        self.refusal().fmt(f)
    }
}

impl Error for PlanFault {}
