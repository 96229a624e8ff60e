//! CIP packets: the header that is written, and the reading and sorting of what is heard.

#![tactic(auto)]

mod header;
mod packet;
mod sorted;
mod sorting;

pub use header::Header;
pub use packet::Packet;
pub use sorted::Sorted;
pub use sorting::sort;
