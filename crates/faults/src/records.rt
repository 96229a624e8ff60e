ghost use Rattle.std.specs.Prelude.{◌≡◌, Some};
ghost use Rattle.faults.specs.Records.{told, carried};
ghost use Rattle.faults.specs.Refusals.{text};

use crate::located::Located;
use crate::packets::PacketFault;
use crate::refusals::Refusal;
use std::error::Error;
use std::fmt;

/// Where a record stands in a reel: its number from 0, and its first byte.
#[derive(Clone, Copy, PartialEq, Eq, Debug, Default)]
pub struct RecordPosition {
    pub number: u32,
    pub place: u32,
}

// A type of its own and no `Located`: each lower fault is carried into the upper one by `From` and `?`.
/// Why the packet of a record is refused.
#[derive(Clone, Copy, PartialEq, Eq, Debug)]
pub struct RecordFault {
    pub position: RecordPosition,
    pub fault: PacketFault,
}

impl RecordFault {
    /// The packet's number, and the place of the record in the reel.
    pub fn refusal(&self) -> Refusal
        ensures { result ≡ told self.now }
    {
        Refusal {
            place: self.position.place,
            ..self.fault.refusal()
        }
    }
}

impl fmt::Display for RecordFault {
    ghost output = { λ fault. Some (text (told fault)) };

    fn fmt<W: fmt::Write>(&self, f: &mut fmt::Formatter<W>) -> fmt::Result {
        self.refusal().fmt(f)
    }
}

impl Error for RecordFault {}

impl From<Located<RecordPosition, PacketFault>> for RecordFault {
    ghost from_gives = { λ fault r. r ≡ carried fault };

    fn from(at: Located<RecordPosition, PacketFault>) -> RecordFault {
        let Located { position, fault } = at;
        RecordFault { position, fault }
    }
}
