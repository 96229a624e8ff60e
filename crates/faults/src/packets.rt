ghost use Rattle.std.specs.Prelude.{◌≡◌, Some};
ghost use Rattle.faults.specs.Packets.{told, carried};
ghost use Rattle.faults.specs.Refusals.{text};

use crate::located::Located;
use crate::refusals::Refusal;
use crate::units::UnitFault;
use std::error::Error;
use std::fmt;

/// Where a unit stands in a packet: its block, its index in the block, and its first byte.
#[derive(Clone, Copy, PartialEq, Eq, Debug)]
pub struct UnitPosition {
    pub block: u16,
    pub unit: u16,
    pub offset: u16,
}

/// Why a packet is refused.
#[derive(Clone, Copy, PartialEq, Eq, Debug)]
pub enum PacketFault {
    /// The cycle is not later than that of the packet accepted before.
    Cycle,
    /// The length is none that a packet can have.
    Length,
    /// The fixed bytes of the header, or the size of its blocks, are not the plan's.
    Header,
    /// FDF is neither the plan's nor that of an idle packet.
    Format,
    /// The payload ends inside a block, or has more blocks than the plan allows.
    Payload,
    /// SYT is no time, or the packet has no block for it.
    Stamp,
    /// The list for the units is shorter than what the packet holds.
    List,
    /// A unit is refused.
    Unit(Located<UnitPosition, UnitFault>),
}

impl PacketFault {
    /// The number and the place in the packet by which the fault is told.
    pub fn refusal(&self) -> Refusal
        ensures { result ≡ told self.now }
    {
        let (number, place) = match self {
            PacketFault::Cycle => (5, 0),
            PacketFault::Length => (7, 0),
            PacketFault::Header => (8, 0),
            PacketFault::Format => (9, 5),
            PacketFault::Payload => (10, 8),
            PacketFault::Stamp => (11, 6),
            PacketFault::List => (12, 8),
            PacketFault::Unit(at) => (13, at.position.offset as u32 + at.fault.place as u32),
        };
        Refusal { number, place }
    }
}

impl fmt::Display for PacketFault {
    ghost output = { λ fault. Some (text (told fault)) };

    fn fmt<W: fmt::Write>(&self, f: &mut fmt::Formatter<W>) -> fmt::Result {
        self.refusal().fmt(f)
    }
}

impl Error for PacketFault {}

impl From<Located<UnitPosition, UnitFault>> for PacketFault {
    ghost from_gives = { λ fault r. r ≡ carried fault };

    fn from(fault: Located<UnitPosition, UnitFault>) -> PacketFault {
        PacketFault::Unit(fault)
    }
}
