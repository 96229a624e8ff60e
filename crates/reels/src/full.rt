ghost use Rattle.std.specs.Prelude.{◌≡◌, Some};
ghost use Rattle.faults.specs.Refusals.{text};
ghost use Rattle.reels.specs.Full.{told};

use faults::Refusal;
use std::error::Error;
use std::fmt;

/// The caller's bytes, or the most that a reel may have, do not hold the reel and its trailer.
#[derive(Clone, Copy, PartialEq, Eq, Debug)]
pub struct ReelFull;

impl ReelFull {
    /// The number by which the fault is told; it has no place.
    pub fn refusal(&self) -> Refusal
        ensures { result ≡ told }
    {
        Refusal {
            number: 21,
            place: 0,
        }
    }
}

impl fmt::Display for ReelFull {
    ghost output = { λ _. Some (text told) };

    fn fmt<W: fmt::Write>(&self, f: &mut fmt::Formatter<W>) -> fmt::Result {
        self.refusal().fmt(f)
    }
}

impl Error for ReelFull {}
