//! Worked runs of a talker and two listeners, and a worked capture.

#![tactic(auto)]

mod captured;
mod left;
mod wrap;

pub use captured::two_packets_captured;
pub use left::left_blocks_come_later;
pub use wrap::missed_across_the_wrap;
