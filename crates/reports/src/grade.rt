ghost use Rattle.std.specs.Prelude.{◌≡◌, Some};
ghost use Rattle.reports.specs.Grades.{grade_of, name as name_of};

use std::fmt;

/// What a run is worth.
#[derive(Clone, Copy, PartialEq, Eq, Debug)]
pub enum Grade {
    /// Nothing is missing.
    Clear,
    /// A packet was refused.
    Doubtful,
    /// No gap is wider than an interval.
    Marked,
    /// A gap is wider than an interval.
    Worn,
}

impl Grade {
    /// The first grade that fits the figures of a run.
    pub fn of(missed: u64, refused: u32, widest: u8, interval: u8) -> Grade
        ensures { result ≡ grade_of missed refused widest interval }
    {
        if missed == 0 {
            Grade::Clear
        } else if refused > 0 {
            Grade::Doubtful
        } else if widest <= interval {
            Grade::Marked
        } else {
            Grade::Worn
        }
    }

    /// The grade in one word.
    fn name(self) -> &'static str
        ensures { result.now ≡ name_of self }
    {
        match self {
            Grade::Clear => "clear",
            Grade::Doubtful => "doubtful",
            Grade::Marked => "marked",
            Grade::Worn => "worn",
        }
    }
}

impl fmt::Display for Grade {
    ghost output = { λ grade. Some (name_of grade) };

    fn fmt<W: fmt::Write>(&self, f: &mut fmt::Formatter<W>) -> fmt::Result {
        f.write_str(self.name())
    }
}
