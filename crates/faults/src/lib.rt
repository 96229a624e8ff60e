//! Why a unit, a packet or a record is refused, and where.
//!
//! A unit's fault is carried whole inside a packet's, and a packet's inside a record's, each with
//! the position that it had there. Every fault is told as a number and a place.

#![tactic(auto)]

mod located;
mod packets;
mod records;
mod refusals;
mod units;

pub use located::{Locate, Located};
pub use packets::{PacketFault, UnitPosition};
pub use records::{RecordFault, RecordPosition};
pub use refusals::Refusal;
pub use units::{UnitCause, UnitFault};
