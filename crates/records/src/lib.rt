//! What stands in a reel: its records, its trailer, and whether the two agree.

#![tactic(auto)]

mod checked;
mod checking;
mod fault;
mod record;
mod reel;
mod sequence;
mod trailer;
mod walk;

pub use checked::Checked;
pub use checking::check;
pub use fault::{ReelCause, ReelFault};
pub use record::{Record, first_record};
pub use reel::Reel;
pub use sequence::Records;
pub use trailer::planned;
