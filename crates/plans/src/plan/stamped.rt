ghost use Rattle.std.specs.Prelude.{◌≡◌, ◌≤◌};
ghost use Rattle.plans.specs.Rates.{interval as interval_of};
ghost use Rattle.plans.specs.Stamps.{stamped_index, FirstStamped};

use crate::plan::Plan;
use kinds::Kind;

/// What is left from a number to the next multiple of the interval.
fn index(interval: u8, number: u32) -> u8
    requires { 1 ≤ interval }
    ensures { result ≡ stamped_index interval number }
{
    let passed = (number % interval as u32) as u8;
    (interval - passed) % interval
}

impl<K: Kind> Plan<K> {
    /// The index, below the interval, of the stamped block in a packet whose first block has this
    /// number. The eight-bit count serves as well as the number, since intervals divide 256.
    pub fn stamped_index(&self, number: u32) -> u8
        ensures value { result ≡ stamped_index (interval_of self.now.sfc) number }
        ensures law { FirstStamped (interval_of self.now.sfc) number result }
    {
        index(self.interval(), number)
    }
}
