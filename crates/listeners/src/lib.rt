//! The listener: it numbers the blocks that it hears, and the blocks that are missing.

#![tactic(auto)]

mod heard;
mod listener;

pub use heard::Heard;
pub use listener::Listener;
