//! A run through a talker, captured packet by packet.

use kinds::Kind;
use plans::{NonBlocking, Plan};
use reels::{OpenReel, ReelPlan};
use std::ops::Range;
use talkers::{Score, SendFault, Talker};

/// What befalls a run, and in which cycle.
#[derive(Clone, Copy, PartialEq, Eq, Debug)]
pub enum Mishap {
    /// A packet is lost.
    Lost(u32),
    /// The first unit of a packet gets a label that no unit has.
    Spoiled(u32),
}

/// A silent stream: its plan, the unit that it repeats, and the ticks at which its blocks arrive.
#[derive(Drop)]
pub struct Silence<K: Kind> {
    pub plan: Plan<K>,
    pub unit: K::Unit,
    pub arrivals: Vec<u64>,
}

/// The packet of a cycle, written to the front of `room`.
fn sent<'a, K: Kind>(
    talker: &mut Talker<K, NonBlocking>,
    score: Score<'_, K::Unit>,
    cycle: u32,
    room: &'a mut [u8],
) -> Result<&'a mut [u8], SendFault> {
    let length = talker.send(score, cycle, room)?.length as usize;
    Ok(&mut room[..length])
}

/// Gives the first unit of a packet, if it has one, a label that no unit has.
fn spoil(packet: &mut [u8]) {
    if let Some(label) = packet.get_mut(8) {
        *label = 0x43;
    }
}

impl<K: Kind> Silence<K>
where
    ReelPlan: From<Plan<K>>,
{
    /// The reel of a run through some cycles.
    pub fn captured(
        &self,
        rt: &HostRuntime,
        cycles: Range<u32>,
        mishap: Option<Mishap>,
    ) -> anyhow::Result<Vec<u8>> {
        let blocks = self.arrivals.len();
        let count = blocks.saturating_mul(self.plan.dimension() as usize);
        let units = vec![in rt.alloc(); self.unit; count]?;
        let score = Score {
            arrivals: &self.arrivals,
            units: &units,
        };
        let mut talker = Talker::new(self.plan, NonBlocking, 1, 8_704)?;
        let mut reel = OpenReel::new(&self.plan.into());
        // The library writes to bytes of the caller's, and tells at the end how many it took.
        let mut bytes = vec![in rt.alloc(); 0; 8_192]?;
        for cycle in cycles {
            let mut room = [0; 4_096];
            let packet = sent(&mut talker, score, cycle, &mut room)?;
            if mishap == Some(Mishap::Spoiled(cycle)) {
                spoil(packet);
            }
            if mishap != Some(Mishap::Lost(cycle)) {
                reel.append(&mut bytes, cycle, packet)?;
            }
        }
        let closed = reel.close(&mut bytes).map_err(|refused| refused.fault)?;
        bytes.truncate(closed.length());
        Ok(bytes)
    }
}
