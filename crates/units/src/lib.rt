//! Rows of units of any kind: codes one after another, with nothing between them.

#![tactic(auto)]

mod fault;
mod laws;
mod reading;
mod writing;

pub use fault::RowFault;
pub use laws::codes_differ;
pub use reading::{check_row, read_row};
pub use writing::write_row;
