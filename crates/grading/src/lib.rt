//! Grading: a reel is checked, its records are heard in order, and the run is reported.

#![tactic(auto)]

mod hearing;
mod reel;
mod tally;

pub use reel::grade_reel;
