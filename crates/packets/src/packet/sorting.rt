ghost use Rattle.std.specs.Prelude.{◌≡◌, Some, None, MatchResult};
ghost use Rattle.plans.specs.Streams.{stream};
ghost use Rattle.packets.specs.Sorting.{bad_header, bad_format, bad_payload, bad_stamp, refusal, Sorts};

use crate::packet::Packet;
use crate::sorted::Sorted;
use faults::PacketFault;
use kinds::Kind;
use plans::Plan;

impl<'a> Packet<'a> {
    /// Whether the fixed parts of the header, or the size of its blocks, are not the plan's.
    fn bad_header<K: Kind>(&self, plan: &Plan<K>) -> bool
        ensures { result ≡ bad_header (stream plan.now) self.now.bytes.now }
    {
        self.bytes[0] > 63
            || self.bytes[4] != 0x90
            || self.bytes[2] != 0
            || self.bytes[1] != plan.dbs()
    }

    /// Whether FDF is neither the plan's nor that of an idle packet.
    fn bad_format<K: Kind>(&self, plan: &Plan<K>) -> bool
        ensures { result ≡ bad_format (stream plan.now) self.now.bytes.now }
    {
        !self.is_idle() && self.bytes[5] != plan.fdf()
    }

    /// Whether the payload ends inside a block, or has more blocks than an interval.
    fn bad_payload<K: Kind>(&self, plan: &Plan<K>) -> bool
        ensures { result ≡ bad_payload (stream plan.now) self.now.bytes.now }
    {
        self.payload().len() % plan.block_bytes() != 0
            || self.blocks(plan) > plan.interval() as usize
    }

    /// Whether the stamp is no time, or the packet has no block for it.
    fn bad_stamp<K: Kind>(&self, plan: &Plan<K>) -> bool
        ensures { result ≡ bad_stamp (stream plan.now) self.now.bytes.now }
    {
        let index = plan.stamped_index(self.dbc() as u32) as usize;
        let no_block = self.blocks(plan) <= index;
        self.stamp()
            .is_some_and(|stamp| stamp % 4096 > 3071 || no_block)
    }

    /// What the packet is by a plan, or why it is refused: the smallest number wins.
    pub fn sort<K: Kind>(&self, plan: &Plan<K>) -> Result<Sorted<'a>, PacketFault>
        ensures { MatchResult result (λ sorted. (refusal (stream plan.now) self.now.bytes.now ≡ None) × Sorts self.now.bytes sorted) (λ f. refusal (stream plan.now) self.now.bytes.now ≡ Some f) }
    {
        if self.bad_header(plan) {
            return Err(PacketFault::Header);
        }
        if self.bad_format(plan) {
            return Err(PacketFault::Format);
        }
        if self.is_idle() {
            return Ok(Sorted::Idle(self.payload()));
        }
        if self.bad_payload(plan) {
            return Err(PacketFault::Payload);
        }
        if self.bad_stamp(plan) {
            return Err(PacketFault::Stamp);
        }
        if self.payload().is_empty() {
            return Ok(Sorted::Empty);
        }
        Ok(Sorted::Data(self.payload()))
    }
}
