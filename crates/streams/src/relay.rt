ghost use Rattle.std.specs.Prelude.{◌≡◌};
ghost use Rattle.plans.specs.Streams.{stream};
ghost use Rattle.talkers.specs.Views.{desk, score_of};
ghost use Rattle.streams.specs.Making.{three};
ghost use Rattle.streams.specs.Relays.{Relays, SameMakings};

use crate::relayed::Relayed;
use crate::trio::Trio;
use kinds::Kind;
use plans::Method;
use talkers::{Score, SendFault};

impl<K: Kind, M: Method> Trio<K, M> {
    /// The talker sends, and the first listener hears what was sent: the steps by which a run goes
    /// on. Only the send can refuse, and then nothing is changed.
    pub fn relay(
        &mut self,
        score: Score<'_, K::Unit>,
        cycle: u32,
        bytes: &mut [u8],
        list: &mut [K::Unit],
    ) -> Result<Relayed, SendFault>
        ensures relays { Relays (desk M.takes self.old.talker) (stream self.old.first.plan) (score_of score.entry.arrivals.now score.entry.units.now) cycle bytes.old bytes.new list.old list.new (three self.old) (three self.new) result }
        ensures same { SameMakings self.old self.new }
    {
        let sent = self.talker.send(score, cycle, bytes)?;
        let heard = self.first.hear(cycle, &bytes[..sent.length as usize], list);
        Ok(Relayed { sent, heard })
    }
}
