use crate::runs::{Mishap, Silence};
use am824::Am824;
use kinds::Bits24;
use pack::{Pack, PackUnit};
use plans::Plan;
use quadlets::Am824Unit;
use std::fmt;
use std::str::FromStr;

/// A telling capture.
#[derive(Clone, Copy, PartialEq, Eq, Debug, Default)]
pub enum Capture {
    /// A run without loss.
    #[default]
    Clean,
    /// A mixer that lost a packet of three blocks.
    Mixer,
    /// A converter that lost five blocks where the eight-bit count starts over.
    Converter,
    /// A run with a unit that is none.
    Spoiled,
    /// A file that ends too early.
    Cut,
}

/// A name that no capture has.
#[derive(Clone, Copy, Debug)]
pub struct NoCapture;

// One function of both would take the arrivals as an iterator, and need a clause that it is finite.
/// At 48 kHz two silent samples a block, and a block every 512 ticks.
fn samples(rt: &HostRuntime, blocks: u64) -> anyhow::Result<Silence<Am824>> {
    let arrivals = (0..blocks).map(|block| block.saturating_mul(512));
    Ok(Silence {
        plan: Plan::new(2, 2)?,
        unit: Am824Unit::Raw24(Bits24 { high: 0, low: 0 }),
        arrivals: arrivals.collect(rt.alloc())?,
    })
}

/// At 48 kHz a silent pack a block, and five blocks every cycle.
fn packs(rt: &HostRuntime, blocks: u64) -> anyhow::Result<Silence<Pack>> {
    let arrivals = (0..blocks).map(|block| (block / 5).saturating_mul(3_072));
    Ok(Silence {
        plan: Plan::new(2, 1)?,
        unit: PackUnit::SILENCE,
        arrivals: arrivals.collect(rt.alloc())?,
    })
}

impl Capture {
    pub const ALL: [Capture; 5] = [
        Capture::Clean,
        Capture::Mixer,
        Capture::Converter,
        Capture::Spoiled,
        Capture::Cut,
    ];

    fn name(self) -> &'static str {
        match self {
            Capture::Clean => "clean",
            Capture::Mixer => "mixer",
            Capture::Converter => "converter",
            Capture::Spoiled => "spoiled",
            Capture::Cut => "cut",
        }
    }

    /// The reel, made with the library.
    pub fn reel(self, rt: &HostRuntime) -> anyhow::Result<Vec<u8>> {
        match self {
            Capture::Clean => samples(rt, 64)?.captured(rt, 1..12, None),
            Capture::Mixer => samples(rt, 10)?.captured(rt, 1..4, Some(Mishap::Lost(2))),
            Capture::Converter => packs(rt, 300)?.captured(rt, 0..60, Some(Mishap::Lost(51))),
            Capture::Spoiled => samples(rt, 64)?.captured(rt, 1..12, Some(Mishap::Spoiled(4))),
            Capture::Cut => {
                let mut reel = samples(rt, 64)?.captured(rt, 1..12, None)?;
                reel.truncate(reel.len().saturating_sub(100));
                Ok(reel)
            }
        }
    }
}

impl fmt::Display for Capture {
    fn fmt<W: fmt::Write>(&self, f: &mut fmt::Formatter<W>) -> fmt::Result {
        f.write_str(self.name())
    }
}

impl FromStr for Capture {
    type Err = NoCapture;

    fn from_str(name: &str) -> Result<Capture, NoCapture> {
        Capture::ALL
            .into_iter()
            .find(|capture| capture.name() == name)
            .ok_or(NoCapture)
    }
}
