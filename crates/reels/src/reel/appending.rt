ghost use Rattle.std.specs.Prelude.{◌≡◌};
ghost use Rattle.reels.specs.Writing.{view, opened, Appends};

use crate::full::ReelFull;
use crate::plan::ReelPlan;
use crate::reel::OpenReel;
use crate::trailer::Trailer;
use crate::writing::{put_record, too_long};

impl OpenReel {
    /// An empty reel for the packets of a stream.
    pub fn new(plan: &ReelPlan) -> OpenReel
        ensures { view result ≡ opened plan.now }
    {
        OpenReel {
            trailer: Trailer {
                last: None,
                count: 0,
                event: plan.event(),
                sfc: plan.sfc(),
                dimension: plan.dimension(),
            },
            used: 0,
        }
    }

    /// Adds a record to the reel in `bytes`; a refusal changes nothing.
    pub fn append(&mut self, bytes: &mut [u8], cycle: u32, packet: &[u8]) -> Result<(), ReelFull>
        ensures { Appends (view self.old) (record { cycle = cycle; packet = packet.now }) bytes.old result bytes.new (view self.new) }
    {
        let used = self.used + (6 + packet.len());
        if too_long(used, bytes.len()) {
            return Err(ReelFull);
        }
        put_record(bytes, self.used, cycle, packet);
        self.trailer.last = Some(self.used as u32);
        self.trailer.count += 1;
        self.used = used;
        Ok(())
    }
}
