//! The figures of a run, its grade, and the line that a price list quotes.

#![tactic(auto)]

mod grade;
mod line;
mod report;

pub use grade::Grade;
pub use line::line_of;
pub use report::Report;
