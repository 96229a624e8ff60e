//! The talker: it sends the blocks of a score as they fall due.

#![tactic(auto)]

mod fault;
mod score;
mod sent;
mod talker;

pub use fault::{SendFault, TalkerFault};
pub use score::Score;
pub use sent::Sent;
pub use talker::Talker;
