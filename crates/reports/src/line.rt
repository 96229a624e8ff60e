ghost use Rattle.std.specs.Prelude.{◌≡◌, IfOk, string_bytes};
ghost use Rattle.reports.specs.Texts.{line};

use crate::report::Report;
use records::ReelFault;
use std::alloc::{AllocError, Global};

/// The line for what grading a reel answered, with its line feed.
pub fn line_of(heap: Global, answer: Result<Report, ReelFault>) -> Result<String, AllocError>
    ensures { IfOk result (λ text. string_bytes text ≡ line answer) }
{
    // Both answers have a line, so both have an arm.
    match answer {
        Ok(report) => format!(in heap; "{report}\n"),
        Err(fault) => format!(in heap; "reel {fault}\n"),
    }
}
