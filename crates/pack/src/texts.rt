ghost use Rattle.std.specs.Prelude.{Some};
ghost use Rattle.pack.specs.Texts.{text};

use crate::unit::PackUnit;
use std::fmt;

impl fmt::Display for PackUnit {
    ghost output = { λ unit. Some (text unit) };

    fn fmt<W: fmt::Write>(&self, f: &mut fmt::Formatter<W>) -> fmt::Result {
        write!(
            f,
            "pack of {}, {}, {}, {}",
            self.first, self.second, self.third, self.fourth
        )
    }
}
