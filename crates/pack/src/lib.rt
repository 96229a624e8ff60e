//! Packs: four signed 24-bit samples in three quadlets.

#![tactic(auto)]

mod kind;
mod making;
mod texts;
mod unit;

pub use kind::Pack;
pub use unit::PackUnit;
