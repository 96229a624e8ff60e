ghost use Rattle.std.specs.Prelude.{◌≡◌, ◌+◌, ◌*◌, ◌≤◌, Some, None, MatchResult};
ghost use Rattle.plans.specs.Planning.{plan_refusal};
ghost use Rattle.plans.specs.Rates.{interval as interval_of};

use crate::fault::PlanFault;
use crate::plan::Plan;
use crate::rate::{Rate, interval};
use kinds::Kind;
use std::marker::PhantomData;

/// The quadlets of a full packet: its header and the blocks of an interval.
fn full_packet(interval: u8, dimension: u32, size: u16) -> u64
    requires some { 1 ≤ interval }
    requires sized { 1 ≤ size }
    ensures value { result ≡ 2 + interval * dimension * size }
    ensures least { 2 + dimension ≤ result }
{
    2 + interval as u64 * dimension as u64 * size as u64
}

impl<K: Kind> Plan<K> {
    /// The plan of a sampling frequency code and a number of units a block.
    pub fn new(sfc: u8, dimension: u32) -> Result<Plan<K>, PlanFault>
        ensures { MatchResult result (λ p. (plan_refusal K.size sfc dimension ≡ None) × (p.sfc ≡ sfc) × (p.dimension ≡ dimension)) (λ f. plan_refusal K.size sfc dimension ≡ Some f) }
    {
        let rate = Rate::of(sfc).ok_or(PlanFault::Rate)?;
        if dimension == 0 || full_packet(rate.interval, dimension, K::size()) > 1024 {
            return Err(PlanFault::Dimension);
        }
        Ok(Plan {
            kind: PhantomData,
            sfc,
            dimension: dimension as u16,
        })
    }

    /// The sampling frequency code.
    pub fn sfc(&self) -> u8
        ensures { result ≡ self.now.sfc }
    {
        self.sfc
    }

    /// The units of a block.
    pub fn dimension(&self) -> u16
        ensures { result ≡ self.now.dimension }
    {
        self.dimension
    }

    /// SYT_INTERVAL: of so many blocks one is stamped, and so many at most go into a packet.
    pub fn interval(&self) -> u8
        ensures { result ≡ interval_of self.now.sfc }
    {
        interval(self.sfc)
    }

    /// DBS: the quadlets of a block.
    pub fn dbs(&self) -> u8
        ensures { result ≡ self.now.dimension * K.size }
    {
        (self.dimension as u32 * K::size() as u32) as u8
    }

    /// FDF: the event type and the sampling frequency code.
    pub fn fdf(&self) -> u8
        ensures { result ≡ 16 * K.EVT + self.now.sfc }
    {
        16 * K::EVT + self.sfc
    }

    /// The bytes of a block.
    pub fn block_bytes(&self) -> usize
        ensures value { result ≡ 4 * K.size * self.now.dimension }
        ensures some { 1 ≤ result }
        ensures most { result ≤ 4 * 1022 * 1022 }
    {
        4 * K::size() as usize * self.dimension as usize
    }
}
