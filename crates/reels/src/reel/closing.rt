ghost use Rattle.std.specs.Prelude.{◌≡◌, ◌+◌, ◌≤◌, length, MatchResult};
ghost use Rattle.reels.specs.Trailers.{trailer_bytes};
ghost use Rattle.reels.specs.Writing.{written, Closed, HandedBack};

use crate::full::ReelFull;
use crate::reel::{ClosedReel, NotClosed, OpenReel};
use crate::writing::{put, too_long};

impl OpenReel {
    /// Writes the trailer after the records.
    fn put_trailer(&self, bytes: &mut [u8])
        requires { self.now.used + 12 ≤ length bytes.old }
        ensures { bytes.new ≡ written bytes.old self.now.used (trailer_bytes self.now.trailer) }
    {
        put(bytes, self.used, &self.trailer.to_bytes());
    }

    /// Writes the trailer after the records in `bytes` and ends the reel; a refusal changes nothing
    /// and hands the reel back.
    pub fn close(self, bytes: &mut [u8]) -> Result<ClosedReel, NotClosed>
        ensures { MatchResult result (λ c. Closed self bytes.old bytes.new c) (λ n. HandedBack self bytes.old bytes.new n) }
    {
        if too_long(self.used, bytes.len()) {
            return Err(NotClosed {
                reel: self,
                fault: ReelFull,
            });
        }
        self.put_trailer(bytes);
        Ok(ClosedReel {
            length: self.used + 12,
            count: self.trailer.count,
        })
    }
}
