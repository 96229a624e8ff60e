ghost use Rattle.std.specs.Prelude.{◌≡◌, Some, None, MatchResult};
ghost use Rattle.records.specs.Checking.{trailer, trailer_refusal, Names};

use crate::fault::ReelFault;
use crate::reel::Reel;
use reels::ReelPlan;

/// The plan of the stream that a reel's trailer names.
pub fn planned(reel: &[u8]) -> Result<ReelPlan, ReelFault>
    ensures { MatchResult result (λ p. (trailer_refusal reel.now ≡ None) × Names (trailer reel.now) p) (λ f. trailer_refusal reel.now ≡ Some f) }
{
    Reel::new_checked(reel)?.plan()
}
