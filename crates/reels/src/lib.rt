//! Reels: captures of packets, written record by record and closed by a trailer.
//!
//! A reel is kept as plain numbers; its bytes are the caller's and are passed at each call.

#![tactic(auto)]

mod full;
mod plan;
mod reel;
mod trailer;
mod writing;

pub use full::ReelFull;
pub use plan::ReelPlan;
pub use reel::{ClosedReel, NotClosed, OpenReel};
pub use trailer::Trailer;
