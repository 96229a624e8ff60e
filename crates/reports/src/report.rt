ghost use Rattle.std.specs.Prelude.{Some};
ghost use Rattle.reports.specs.Texts.{report_text};

use crate::grade::Grade;
use faults::RecordFault;
use std::fmt;

/// The figures of a run.
#[derive(Clone, Copy, PartialEq, Eq, Debug)]
pub struct Report {
    /// Blocks heard.
    pub heard: u64,
    /// Blocks missing.
    pub missed: u64,
    /// Places at which blocks are missing.
    pub gaps: u32,
    /// The most blocks missing at one place.
    pub widest: u8,
    /// Packets refused.
    pub refused: u32,
    /// The first refusal.
    pub first: Option<RecordFault>,
    pub grade: Grade,
}

impl fmt::Display for Report {
    ghost output = { λ report. Some (report_text report) };

    fn fmt<W: fmt::Write>(&self, f: &mut fmt::Formatter<W>) -> fmt::Result {
        let Report {
            heard,
            missed,
            gaps,
            widest,
            refused,
            grade,
            ..
        } = self;
        write!(
            f,
            "heard {heard} missed {missed} gaps {gaps} widest {widest} refused {refused} grade {grade}"
        )
    }
}
