ghost use Rattle.std.specs.Prelude.{◌≡◌, ◌<◌};
ghost use Rattle.grading.specs.Tallies.{counted};

use crate::tally::Tally;
use faults::RecordFault;
use listeners::Heard;

impl Tally {
    /// Counts what the hearing of a record answered.
    pub(crate) fn count(&mut self, answer: Result<Heard, RecordFault>)
        requires gaps { self.old.gaps < 65536 }
        requires refused { self.old.refused < 65536 }
        ensures { self.new ≡ counted self.old answer }
    {
        // Both answers are counted, so both have an arm.
        match answer {
            Ok(heard) => {
                self.gaps += u32::from(heard.gap > 0);
                self.widest = self.widest.max(heard.gap);
            }
            Err(fault) => {
                self.refused += 1;
                self.first = self.first.or(Some(fault));
            }
        }
    }
}
