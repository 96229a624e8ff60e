//! AM824 units from bare numbers, and raw samples as a length code and a number.

#![tactic(auto)]

mod making;
mod sample;

pub use making::{midi, raw, subframe};
pub use sample::Sample;
