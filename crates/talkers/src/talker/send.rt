ghost use Rattle.talkers.specs.Sending.{Sends};
ghost use Rattle.talkers.specs.Views.{desk, state, score_of, SameDesk};

use crate::fault::SendFault;
use crate::score::Score;
use crate::sent::Sent;
use crate::talker::Talker;
use crate::talker::parts::write_packet;
use clock::not_later;
use kinds::Kind;
use plans::Method;

impl<K: Kind, M: Method> Talker<K, M> {
    /// Sends in a cycle what the method takes of the blocks that are due, as a packet at the front
    /// of `bytes`; a refusal changes nothing.
    pub fn send(
        &mut self,
        score: Score<'_, K::Unit>,
        cycle: u32,
        bytes: &mut [u8],
    ) -> Result<Sent, SendFault>
        ensures sends { Sends (desk M.takes self.old) (score_of score.entry.arrivals.now score.entry.units.now) (state self.old) cycle bytes.old result bytes.new (state self.new) }
        ensures same { SameDesk self.old self.new }
    {
        if self.bad_score(score) {
            return Err(SendFault::Score);
        }
        if not_later(cycle, self.last) {
            return Err(SendFault::Cycle);
        }
        let blocks = self.blocks_taken(score.arrivals, cycle);
        let header = self.header(score.arrivals, blocks, cycle);
        write_packet::<K>(header, self.units_of(score.units, blocks), bytes)?;
        self.place += blocks;
        self.last = Some(cycle);
        let length = 8 + self.plan.block_bytes() * blocks as usize;
        Ok(Sent {
            blocks,
            length: length as u32,
        })
    }
}
