//! What a quadlet of an AM824 stream carries, as a value and in words.

#![tactic(auto)]

mod marker;
mod texts;
mod unit;

pub use marker::Marker;
pub use unit::Am824Unit;
