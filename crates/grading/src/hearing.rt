ghost use Rattle.std.specs.Prelude.{◌≡◌};
ghost use Rattle.plans.specs.Streams.{stream};
ghost use Rattle.listeners.specs.Views.{state};
ghost use Rattle.records.specs.Placing.{seen, records_left};
ghost use Rattle.grading.specs.Grading.{report, left};
ghost use Rattle.grading.specs.Hearings.{of_record, answer as answer_of, after};
ghost use Rattle.grading.specs.Tallies.{reported};

use crate::tally::Tally;
use faults::{Locate, RecordFault, RecordPosition};
use kinds::Kind;
use listeners::{Heard, Listener};
use plans::Plan;
use records::{Record, Records};
use reports::{Grade, Report};

/// Hears the packet of a record; a refusal tells the record's position.
fn hear_record<K: Kind>(
    listener: &mut Listener<K>,
    next: Record<'_>,
    position: RecordPosition,
    list: &mut [K::Unit],
) -> Result<Heard, RecordFault>
    ensures answer { result ≡ of_record position (answer_of (stream listener.old.plan) (record { state = state listener.old; list = list.old }) (seen next.entry)) }
    ensures left { record { state = state listener.new; list = list.new } ≡ after (stream listener.old.plan) (record { state = state listener.old; list = list.old }) (seen next.entry) }
    ensures same { listener.new.plan ≡ listener.old.plan }
{
    Ok(listener.hear(next.cycle, next.packet, list).at(position)?)
}

// Field by field: a report's figures are public, a tally's are the library's own.
/// What a listener and a tally have counted, and its grade.
fn report_of<K: Kind>(listener: &Listener<K>, tally: Tally, interval: u8) -> Report
    ensures { result ≡ reported interval listener.now.heard listener.now.missed tally }
{
    let missed = listener.missed();
    Report {
        heard: listener.heard(),
        missed,
        gaps: tally.gaps,
        widest: tally.widest,
        refused: tally.refused,
        first: tally.first,
        grade: Grade::of(missed, tally.refused, tally.widest, interval),
    }
}

/// Hears records in order with a new listener, and reports the run.
pub(crate) fn hear_records<K: Kind>(
    plan: Plan<K>,
    records: Records<'_>,
    list: &mut [K::Unit],
) -> Report
    ensures report { result ≡ report (stream plan) list.old (records_left records.entry) }
    ensures list { list.new ≡ left (stream plan) list.old (records_left records.entry) }
{
    let mut listener = Listener::new(plan);
    let mut tally = Tally::default();
    for (position, record) in records {
        tally.count(hear_record(&mut listener, record, position, list));
    }
    report_of(&listener, tally, plan.interval())
}
