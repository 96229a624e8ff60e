ghost use Rattle.std.specs.Prelude.{◌≡◌, Some, None, MatchResult, OnOk};
ghost use Rattle.records.specs.Checking.{check_refusal, trailer, Names};
ghost use Rattle.records.specs.Laws.{CapturedIsFound, IsItsRecords};
ghost use Rattle.records.specs.Placing.{records_left};
ghost use Rattle.grading.specs.Grading.{reel_placed, Grades};
ghost use Rattle.grading.specs.Plans.{report_by, quadlets_by, packs_by};

use crate::hearing::hear_records;
use pack::PackUnit;
use quadlets::Am824Unit;
use records::{Records, Reel, ReelFault, check};
use reels::ReelPlan;
use reports::Report;

/// The plan and the records of a reel that passes the check.
fn accepted(reel: &[u8]) -> Result<(ReelPlan, Records<'_>), ReelFault>
    ensures cases { MatchResult result
        (λ x. (check_refusal reel.now ≡ None) × Names (trailer reel.now) x.0 × (records_left x.1 ≡ reel_placed reel.now))
        (λ f. check_refusal reel.now ≡ Some f) }
    ensures whole { OnOk result (IsItsRecords reel.now) }
{
    let parts = Reel::new_checked(reel)?;
    let plan = parts.plan()?;
    check(reel)?;
    Ok((plan, parts.records()))
}

/// Hears records by a plan, into the list of its kind.
fn hear_by(
    plan: ReelPlan,
    records: Records<'_>,
    quadlets: &mut [Am824Unit],
    packs: &mut [PackUnit],
) -> Report
    ensures report { result ≡ report_by plan (records_left records.entry) quadlets.old packs.old }
    ensures quadlets { quadlets.new ≡ quadlets_by plan (records_left records.entry) quadlets.old }
    ensures packs { packs.new ≡ packs_by plan (records_left records.entry) packs.old }
{
    match plan {
        ReelPlan::Am824(plan) => hear_records(plan, records, quadlets),
        ReelPlan::Pack(plan) => hear_records(plan, records, packs),
    }
}

// Two lists of the caller's, of any length each; a reel uses the one of its kind.
/// Grades a reel: it is checked, and its records are heard in order with a new listener, their units
/// going to the front of the list of their kind. A refused reel leaves both lists as they were. An
/// accepted reel is its records and its trailer, and what was captured on a plan that was made, and
/// closed, is accepted.
pub fn grade_reel(
    reel: &[u8],
    quadlets: &mut [Am824Unit],
    packs: &mut [PackUnit],
) -> Result<Report, ReelFault>
    ensures grades { Grades reel.now quadlets.old packs.old result quadlets.new packs.new }
    ensures whole { OnOk result (IsItsRecords reel.now) }
    ensures captured { CapturedIsFound }
{
    let (plan, records) = accepted(reel)?;
    Ok(hear_by(plan, records, quadlets, packs))
}
