ghost use Rattle.std.specs.Prelude.{◌≡◌, ℕ, ◌+◌, ◌%◌, ◌<◌, ◌≤◌, length, slice_index};
ghost use Rattle.clock.specs.Ticks.{start as start_of};
ghost use Rattle.packets.specs.Headers.{header_bytes};
ghost use Rattle.plans.specs.Rates.{interval as interval_of};
ghost use Rattle.plans.specs.Streams.{stream, dbs, fdf};
ghost use Rattle.talkers.specs.Sending.{stamp_for, syt_for};

use crate::talker::Talker;
use clock::{stamp, start};
use kinds::Kind;
use packets::Header;
use plans::Method;

impl<K: Kind, M: Method> Talker<K, M> {
    // Two facts on the blocks that go, twice: a struct that holds them would be made and taken apart here alone.
    /// The stamp of the next packet, of so many blocks: none without a stamped block, or where its
    /// time is past.
    fn stamp(&self, arrivals: &[u64], blocks: u32, cycle: u32) -> Option<u16>
        requires inside { self.now.place + blocks ≤ length arrivals.now }
        requires arrived { (k : ℕ) → k < blocks → slice_index arrivals.now (self.now.place + k) ≤ start_of cycle }
        ensures { result ≡ stamp_for (interval_of self.now.plan.sfc) self.now.delay arrivals.now self.now.place blocks cycle }
    {
        let index = self.plan.stamped_index(self.place);
        if index as u32 >= blocks {
            return None;
        }
        let time = arrivals[self.place as usize + index as usize] + self.delay as u64;
        (time >= start(cycle)).then(|| stamp(time))
    }

    /// The header of the next packet, of so many blocks.
    pub(super) fn header(&self, arrivals: &[u64], blocks: u32, cycle: u32) -> [u8; 8]
        requires inside { self.now.place + blocks ≤ length arrivals.now }
        requires arrived { (k : ℕ) → k < blocks → slice_index arrivals.now (self.now.place + k) ≤ start_of cycle }
        ensures { result ≡ header_bytes self.now.sid (dbs (stream self.now.plan)) (self.now.place % 256) (fdf (stream self.now.plan)) (syt_for (interval_of self.now.plan.sfc) self.now.delay arrivals.now self.now.place blocks cycle) }
    {
        let header = Header {
            sid: self.sid,
            dbs: self.plan.dbs(),
            dbc: (self.place % 256) as u8,
            fdf: self.plan.fdf(),
            syt: self.stamp(arrivals, blocks, cycle),
        };
        header.to_bytes()
    }
}
