ghost use Rattle.std.specs.Fmt.{signed_decimal};
ghost use Rattle.std.specs.Prelude.{Some};
ghost use Rattle.kinds.specs.Bits.{number};

use crate::bits24::Bits24;
use std::fmt;

/// The number of which the bits are the two's complement, in decimal.
impl fmt::Display for Bits24 {
    ghost output = { λ bits. Some (signed_decimal (number bits)) };

    fn fmt<W: fmt::Write>(&self, f: &mut fmt::Formatter<W>) -> fmt::Result {
        write!(f, "{}", self.number())
    }
}
