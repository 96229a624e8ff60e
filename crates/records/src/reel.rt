ghost use Rattle.std.specs.Prelude.{◌+◌, ◌≤◌, length};

use crate::checked::Checked;
use crate::fault::{ReelCause, ReelFault};
use crate::sequence::Records;
use crate::walk::{Walk, walk_over};
use am824::Am824;
use faults::RecordPosition;
use kinds::Kind;
use pack::Pack;
use plans::{Plan, PlanFault};
use reels::{ReelPlan, Trailer};

/// A reel of an admitted length: the bytes before its trailer, and what the trailer says.
#[derive(Clone, Copy)]
pub struct Reel<'a> {
    bytes: &'a [u8],
    trailer: Trailer,
    pub ghost room: { length bytes.now + 12 ≤ 65536 },
}

impl<'a> Reel<'a> {
    ghost use Rattle.std.specs.Prelude.{◌≡◌, true, false, take, Some, None, MatchResult};
    ghost use Rattle.faults.specs.Outcomes.{answered};
    ghost use Rattle.reels.specs.Records.{rising as rising_of};
    ghost use Rattle.records.specs.Checking.{bad_length, fault as fault_of, plan_fault as plan_fault_of, stream_refusal, told_refusal, trailer, trailer_place, Names};
    ghost use Rattle.records.specs.Reading.{records, origin, placed};
    ghost use Rattle.records.specs.Placing.{records_left};
    ghost use Rattle.records.specs.Walking.{over};
    ghost use Rattle.records.specs.declared.fault.ReelCause.TheVariants.{Length};

    /// The reel that some bytes are, if they are not too few for a trailer nor too many for a reel.
    pub fn new_checked(bytes: &'a [u8]) -> Result<Reel<'a>, ReelFault>
        ensures { MatchResult result
            (λ r. (bad_length bytes.now ≡ false) × (r.bytes.now ≡ take (trailer_place bytes.now) bytes.now) × (r.trailer ≡ trailer bytes.now))
            (λ f. (bad_length bytes.now ≡ true) × (fault_of Length 0 ≡ Some f)) }
    {
        let (bytes, trailer) = bytes
            .split_last_chunk()
            .filter(|_| bytes.len() <= 65_536)
            .ok_or(ReelFault {
                cause: ReelCause::Length,
                place: 0,
            })?;
        Ok(Reel {
            bytes,
            trailer: Trailer::from_bytes(*trailer),
        })
    }

    /// A fault at a byte of the trailer.
    fn trailer_fault(&self, cause: ReelCause, at: u32) -> ReelFault
        requires { at ≤ 12 }
        ensures { Some result ≡ fault_of cause (length self.now.bytes.now + at) }
    {
        ReelFault {
            cause,
            place: self.bytes.len() as u32 + at,
        }
    }

    /// A stream that is not planned, at the byte of the trailer that names what is wrong with it.
    fn plan_fault(&self, fault: PlanFault) -> ReelFault
        ensures { Some result ≡ plan_fault_of (length self.now.bytes.now) (Some fault) }
    {
        let at = match fault {
            PlanFault::Rate => 9,
            PlanFault::Dimension => 10,
        };
        self.trailer_fault(ReelCause::Plan(fault), at)
    }

    /// The plan of the stream that the trailer names.
    pub fn plan(&self) -> Result<ReelPlan, ReelFault>
        ensures { let refusal = stream_refusal (length self.now.bytes.now) self.now.trailer in
            MatchResult result (λ p. (refusal ≡ None) × Names self.now.trailer p) (λ f. refusal ≡ Some f) }
    {
        let Trailer {
            event,
            sfc,
            dimension,
            ..
        } = self.trailer;
        let refused = |fault| self.plan_fault(fault);
        // An arm for each kind, since the plans are of two types.
        match event {
            Am824::EVT => Ok(ReelPlan::Am824(Plan::new(sfc, dimension as u32).map_err(refused)?)),
            Pack::EVT => Ok(ReelPlan::Pack(Plan::new(sfc, dimension as u32).map_err(refused)?)),
            _ => Err(self.trailer_fault(ReelCause::Event, 8)),
        }
    }

    /// The records that stand whole before the trailer.
    pub fn records(&self) -> Records<'a>
        ensures { records_left result ≡ placed origin (records self.now.bytes.now) }
    {
        Records {
            rest: self.bytes,
            position: RecordPosition::default(),
        }
    }

    /// A walk over the records.
    #[tactic(auto, using(crate::proofs::Reading::placed_records))]
    fn walk(&self) -> Walk
        ensures { result ≡ over (records self.now.bytes.now) }
    {
        walk_over(self.records())
    }

    /// Whether the records reach the trailer, and are those that it tells.
    pub fn check(&self) -> Result<Checked, ReelFault>
        ensures { let rs = records self.now.bytes.now in
            result ≡ answered (told_refusal (length self.now.bytes.now) self.now.trailer rs) (record { count = length rs; rising = rising_of rs }) }
    {
        let walk = self.walk();
        if walk.at < self.bytes.len() {
            return Err(ReelFault {
                cause: ReelCause::Record,
                place: walk.at as u32,
            });
        }
        if self.trailer.last != walk.last || self.trailer.count != walk.count {
            return Err(self.trailer_fault(ReelCause::Trailer, 0));
        }
        Ok(Checked {
            count: walk.count,
            rising: walk.rising,
        })
    }
}
