//! The stream that is sent and heard: AM824 at 48 kHz, ten silent blocks of two units.

use am824::Am824;
use plans::{Plan, PlanFault, default_delay};
use quadlets::Am824Unit;
use samples::raw;
use talkers::Score;

/// The plan and the units of the stream.
#[derive(Drop)]
pub struct Worked {
    pub plan: Plan<Am824>,
    units: [Am824Unit; 20],
}

impl Worked {
    pub fn new() -> anyhow::Result<Worked> {
        Ok(Worked {
            plan: Plan::new(2, 2)?,
            units: [raw(0, 0)?; 20],
        })
    }

    /// The units, and the ticks at which their blocks arrive.
    pub fn score(&self) -> Score<'_, Am824Unit> {
        Score {
            arrivals: &[0, 512, 1024, 1536, 2048, 2560, 3072, 3584, 4096, 4608],
            units: &self.units,
        }
    }

    /// The default delay.
    // The truth value that `default_delay` takes, handed on.
    pub fn delay(&self, blocking: bool) -> Result<u32, PlanFault> {
        default_delay(self.plan.sfc(), blocking).map(u32::from)
    }
}
