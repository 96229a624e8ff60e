ghost use Rattle.std.specs.Prelude.{◌≡◌, true, false, Some, None, MatchResult};
ghost use Rattle.talkers.specs.Making.{talker_refusal};

use crate::fault::TalkerFault;
use crate::talker::Talker;
use kinds::Kind;
use plans::Plan;

impl<K: Kind, M: Drop> Talker<K, M> {
    /// A talker at the start of its score.
    pub fn new(plan: Plan<K>, method: M, sid: u8, delay: u32) -> Result<Talker<K, M>, TalkerFault>
        ensures { MatchResult result (λ t. (talker_refusal sid delay ≡ None) × (t.plan ≡ plan) × (t.method ≡ method) × (t.sid ≡ sid) × (t.delay ≡ delay) × (t.place ≡ 0) × (t.last ≡ None)) (λ f. talker_refusal sid delay ≡ Some f) }
    {
        if sid > 63 {
            return Err(TalkerFault::Source);
        }
        if delay > 49_151 {
            return Err(TalkerFault::Delay);
        }
        Ok(Talker {
            plan,
            method,
            sid,
            delay: delay as u16,
            place: 0,
            last: None,
        })
    }

    /// The number of the next block.
    pub fn place(&self) -> u32
        ensures { result ≡ self.now.place }
    {
        self.place
    }

    /// The last cycle in which a send was accepted.
    pub fn last(&self) -> Option<u32>
        ensures { result ≡ self.now.last }
    {
        self.last
    }
}
