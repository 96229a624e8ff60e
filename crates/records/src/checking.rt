ghost use Rattle.std.specs.Prelude.{◌≡◌, OnOk};
ghost use Rattle.records.specs.Checking.{checked};
ghost use Rattle.records.specs.Laws.{CapturedIsFound, IsItsRecords};

use crate::checked::Checked;
use crate::fault::ReelFault;
use crate::reel::Reel;

/// What the check of a reel answers.
fn examine(reel: &[u8]) -> Result<Checked, ReelFault>
    ensures { result ≡ checked reel.now }
{
    let reel = Reel::new_checked(reel)?;
    reel.plan()?;
    reel.check()
}

/// Checks a reel: how many records it has and whether their cycles rise, or why it is none. An
/// accepted reel is the bytes of its records and its trailer and nothing else, and what was captured on
/// a plan that was made, and closed, is a reel with just those records.
pub fn check(reel: &[u8]) -> Result<Checked, ReelFault>
    ensures value { result ≡ checked reel.now }
    ensures whole { OnOk result (IsItsRecords reel.now) }
    ensures captured { CapturedIsFound }
{
    examine(reel)
}
