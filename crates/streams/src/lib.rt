//! One talker and two listeners on one plan, and the law that holds of every run of theirs.

#![tactic(auto)]

mod relay;
mod relayed;
mod trio;

pub use relayed::Relayed;
pub use trio::Trio;
