ghost use Rattle.std.specs.Prelude.{◌≡◌, Some};
ghost use Rattle.faults.specs.Refusals.{text};
ghost use Rattle.talkers.specs.Faults.{talker_told, send_told};
ghost use Rattle.talkers.specs.declared.fault.SendFault.TheVariants.{Room};

use faults::{Refusal, UnitFault};
use std::error::Error;
use std::fmt;

/// Why no talker is made.
#[derive(Clone, Copy, PartialEq, Eq, Debug)]
pub enum TalkerFault {
    /// The source node is above 63.
    Source,
    /// The delay is above 49,151 ticks.
    Delay,
}

impl TalkerFault {
    /// The number by which the fault is told; it has no place.
    pub fn refusal(&self) -> Refusal
        ensures { result ≡ talker_told self.now }
    {
        let number = match self {
            TalkerFault::Source | TalkerFault::Delay => 3,
        };
        Refusal { number, place: 0 }
    }
}

impl fmt::Display for TalkerFault {
    ghost output = { λ fault. Some (text (talker_told fault)) };

    fn fmt<W: fmt::Write>(&self, f: &mut fmt::Formatter<W>) -> fmt::Result {
        self.refusal().fmt(f)
    }
}

impl Error for TalkerFault {}

/// Why nothing is sent.
#[derive(Clone, Copy, PartialEq, Eq, Debug)]
pub enum SendFault {
    /// The score is too long, has not the plan's units to a block, or ends before the place reached.
    Score,
    /// A send was accepted before, in this cycle or a later one.
    Cycle,
    /// The bytes are too few for the packet.
    Room,
}

impl SendFault {
    /// The number by which the fault is told; it has no place.
    pub fn refusal(&self) -> Refusal
        ensures { result ≡ send_told self.now }
    {
        let number = match self {
            SendFault::Score => 4,
            SendFault::Cycle => 5,
            SendFault::Room => 6,
        };
        Refusal { number, place: 0 }
    }
}

impl fmt::Display for SendFault {
    ghost output = { λ fault. Some (text (send_told fault)) };

    fn fmt<W: fmt::Write>(&self, f: &mut fmt::Formatter<W>) -> fmt::Result {
        self.refusal().fmt(f)
    }
}

impl Error for SendFault {}

/// A row that is not written for want of room is a packet that is not.
impl From<UnitFault> for SendFault {
    ghost from_gives = { λ _ r. r ≡ Room };

    fn from(_fault: UnitFault) -> SendFault {
        SendFault::Room
    }
}
