ghost use Rattle.std.specs.Prelude.{◌≡◌};
ghost use Rattle.pack.specs.Makings.{made};

use crate::unit::PackUnit;
use faults::UnitFault;
use kinds::Bits24;

impl PackUnit {
    /// A pack of four numbers from -8,388,608 to 8,388,607.
    pub fn new(first: i32, second: i32, third: i32, fourth: i32) -> Result<PackUnit, UnitFault>
        ensures { result ≡ made first second third fourth }
    {
        Ok(PackUnit {
            first: Bits24::signed(first)?,
            second: Bits24::signed(second)?,
            third: Bits24::signed(third)?,
            fourth: Bits24::signed(fourth)?,
        })
    }
}
