ghost use Rattle.std.specs.Prelude.{◌≡◌, Some};
ghost use Rattle.faults.specs.Refusals.{text};
ghost use Rattle.records.specs.Faults.{told};

use faults::Refusal;
use plans::PlanFault;
use std::error::Error;
use std::fmt;

/// Why a reel is refused.
#[derive(Clone, Copy, PartialEq, Eq, Debug)]
pub enum ReelCause {
    /// The bytes are too few for a trailer, or more than a reel may have.
    Length,
    /// The event type is neither that of AM824 nor that of packs.
    Event,
    /// The trailer names a stream that is not planned.
    Plan(PlanFault),
    /// A record runs into the trailer.
    Record,
    /// The trailer tells other records than there are.
    Trailer,
}

/// Why a reel is refused, and the place in the reel, counted in bytes from 0.
#[derive(Clone, Copy, PartialEq, Eq, Debug)]
pub struct ReelFault {
    pub cause: ReelCause,
    pub place: u32,
}

impl ReelFault {
    /// The number and the place by which the fault is told.
    pub fn refusal(&self) -> Refusal
        ensures { result ≡ told self.now }
    {
        let number = match self.cause {
            ReelCause::Length => 18,
            ReelCause::Event => 22,
            ReelCause::Plan(fault) => fault.refusal().number,
            ReelCause::Record => 19,
            ReelCause::Trailer => 20,
        };
        Refusal {
            number,
            place: self.place,
        }
    }
}

impl fmt::Display for ReelFault {
    ghost output = { λ fault. Some (text (told fault)) };

    fn fmt<W: fmt::Write>(&self, f: &mut fmt::Formatter<W>) -> fmt::Result {
        self.refusal().fmt(f)
    }
}

impl Error for ReelFault {}
