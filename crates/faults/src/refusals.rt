ghost use Rattle.std.specs.Prelude.{Some};
ghost use Rattle.faults.specs.Refusals.{text};

use std::error::Error;
use std::fmt;

// A fault tells it by a call `refusal`, which names what comes of it, as `into` would not.
// A fault of another crate prints itself by its own impl, since Rust lets no one impl stand for all faults.
/// A refusal as it is told: its number, and a place counted in bytes from 0.
#[derive(Clone, Copy, PartialEq, Eq, Debug)]
pub struct Refusal {
    pub number: u8,
    pub place: u32,
}

impl fmt::Display for Refusal {
    ghost output = { λ refusal. Some (text refusal) };

    fn fmt<W: fmt::Write>(&self, f: &mut fmt::Formatter<W>) -> fmt::Result {
        let Refusal { number, place } = self;
        write!(f, "refused {number} at {place}")
    }
}

impl Error for Refusal {}
