ghost use Rattle.std.specs.Prelude.{◌≡◌, IfOk, Some, None, MatchResult};
ghost use Rattle.plans.specs.Streams.{stream};
ghost use Rattle.talkers.specs.Making.{talker_refusal};
ghost use Rattle.talkers.specs.Views.{desk};
ghost use Rattle.streams.specs.Making.{MadeOf, Lawful};

use crate::trio::Trio;
use kinds::Kind;
use listeners::Listener;
use plans::{Method, Plan};
use talkers::{Talker, TalkerFault};

impl<K: Kind, M: Method + Drop> Trio<K, M> {
    /// A talker and two listeners, all fresh. From here on, whatever score is sent and whatever
    /// calls are admitted, the law of two listeners holds after each call.
    pub fn new(plan: Plan<K>, method: M, sid: u8, delay: u32) -> Result<Trio<K, M>, TalkerFault>
        ensures made { MatchResult result (λ t. (talker_refusal sid delay ≡ None) × MadeOf plan method sid delay t) (λ f. talker_refusal sid delay ≡ Some f) }
        ensures lawful { IfOk result (λ t. Lawful (desk M.takes t.talker)) }
    {
        let talker = Talker::new(plan, method, sid, delay)?;
        Ok(Trio {
            talker,
            first: Listener::new(plan),
            second: Listener::new(plan),
        })
    }
}
