ghost use Rattle.std.specs.Prelude.{◌≡◌, Some, MatchResult};
ghost use Rattle.plans.specs.Streams.{stream};
ghost use Rattle.listeners.specs.Hearing.{weigh_refusal, Hears, Weighed};
ghost use Rattle.listeners.specs.Views.{state};

use crate::heard::Heard;
use crate::listener::Listener;
use crate::listener::parts::{count_of, read_units, time_in};
use clock::{gap, not_later};
use faults::PacketFault;
use kinds::Kind;
use packets::Packet;

impl<K: Kind> Listener<K> {
    /// What a packet brings, its units aside; nothing is changed.
    fn weigh(&self, cycle: u32, packet: &[u8]) -> Result<Heard, PacketFault>
        ensures { MatchResult result (λ h. Weighed (stream self.now.plan) cycle packet.now (state self.now) h) (λ f. weigh_refusal (stream self.now.plan) cycle packet.now (state self.now) ≡ Some f) }
    {
        if not_later(cycle, self.last) {
            return Err(PacketFault::Cycle);
        }
        let packet = Packet::new(packet)?;
        packet.sort(&self.plan)?;
        let gap = gap(self.next, packet.dbc());
        Ok(Heard {
            gap,
            first: self.next + gap as u64,
            blocks: count_of(&self.plan, &packet),
            time: time_in(cycle, &packet),
        })
    }

    /// Hears a packet in a cycle: tells the gap before it and the numbers of its blocks, whose units
    /// go to the front of `list`; a refusal changes nothing.
    pub fn hear(
        &mut self,
        cycle: u32,
        packet: &[u8],
        list: &mut [K::Unit],
    ) -> Result<Heard, PacketFault>
        ensures hears { Hears (stream self.old.plan) cycle packet.now (state self.old) list.old result list.new (state self.new) }
        ensures same { self.new.plan ≡ self.old.plan }
    {
        let heard = self.weigh(cycle, packet)?;
        read_units(&self.plan, packet, heard.blocks, list)?;
        self.next = heard.first + heard.blocks as u64;
        self.heard += heard.blocks as u64;
        self.missed += heard.gap as u64;
        self.last = Some(cycle);
        Ok(heard)
    }
}
