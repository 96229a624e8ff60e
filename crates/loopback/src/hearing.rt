use crate::worked::Worked;
use am824::Am824;
use faults::PacketFault;
use listeners::{Heard, Listener};
use plans::NonBlocking;
use quadlets::Am824Unit;
use std::fmt;
use streams::Trio;
use talkers::Talker;

/// What a hearing answered, with the listener's name and the cycle.
#[derive(Drop)]
struct Told<'a> {
    who: &'a str,
    cycle: u32,
    answer: Result<Heard, PacketFault>,
}

impl fmt::Display for Told<'_> {
    fn fmt<W: fmt::Write>(&self, f: &mut fmt::Formatter<W>) -> fmt::Result {
        let Told { who, cycle, answer } = self;
        write!(f, "{who}, cycle {cycle}: ")?;
        // Both answers are written, so both have an arm.
        match answer {
            Ok(heard) => {
                write!(
                    f,
                    "{} missing, {} blocks from {}, ",
                    heard.gap, heard.blocks, heard.first
                )?;
                match heard.time {
                    Some(time) => write!(f, "stamped for {time}"),
                    None => write!(f, "no stamp"),
                }
            }
            Err(fault) => write!(f, "{fault}"),
        }
    }
}

/// A listener and its name.
#[derive(Drop)]
struct Ear {
    who: &'static str,
    listener: Listener<Am824>,
}

impl Ear {
    /// Hears a packet, and prints what came of it and the units that were handed out.
    fn hear(&mut self, rt: &HostRuntime, cycle: u32, packet: &[u8]) -> anyhow::Result<()> {
        let mut list = [Am824Unit::Midi0; 14];
        let answer = self.listener.hear(cycle, packet, &mut list);
        let told = Told {
            who: self.who,
            cycle,
            answer,
        };
        println!(rt; "  {told}")?;
        let blocks = answer.map_or(0, |heard| heard.blocks);
        for block in list.chunks(2).take(blocks as usize) {
            for unit in block {
                print!(rt; "    {unit}")?;
            }
            println!(rt)?;
        }
        Ok(())
    }

    /// Prints what was counted.
    fn show_counts(&self, rt: &HostRuntime) -> anyhow::Result<()> {
        let Ear { who, listener } = self;
        let heard = listener.heard();
        let missed = listener.missed();
        println!(rt; "  {who}: {heard} heard, {missed} missed")?;
        Ok(())
    }
}

/// The worked stream, its talker, and the two listeners.
#[derive(Drop)]
struct Stand {
    worked: Worked,
    talker: Talker<Am824, NonBlocking>,
    first: Ear,
    second: Ear,
}

impl Stand {
    fn new() -> anyhow::Result<Stand> {
        let worked = Worked::new()?;
        let trio = Trio::new(worked.plan, NonBlocking, 1, worked.delay(false)?)?;
        Ok(Stand {
            worked,
            talker: trio.talker,
            first: Ear {
                who: "first",
                listener: trio.first,
            },
            second: Ear {
                who: "second",
                listener: trio.second,
            },
        })
    }

    /// Sends in a cycle, lets the first listener hear the packet twice, and then the second, in
    /// cycle 2 with a unit whose label no unit has.
    fn pass(&mut self, rt: &HostRuntime, cycle: u32) -> anyhow::Result<()> {
        let mut bytes = [0; 72];
        let sent = self.talker.send(self.worked.score(), cycle, &mut bytes)?;
        let length = sent.length as usize;
        self.first.hear(rt, cycle, &bytes[..length])?;
        self.first.hear(rt, cycle, &bytes[..length])?;
        if cycle == 2 {
            bytes[12] = 0x43;
        }
        self.second.hear(rt, cycle, &bytes[..length])
    }
}

/// Sends the ten blocks in cycles 1 to 3; the first listener hears all three packets, the second
/// not that of cycle 2, and each is given packets that it refuses.
pub fn show(rt: &HostRuntime) -> anyhow::Result<()> {
    println!(rt; "Heard by two listeners, the second without cycle 2:")?;
    let mut stand = Stand::new()?;
    for cycle in 1..4 {
        stand.pass(rt, cycle)?;
    }
    stand.first.show_counts(rt)?;
    stand.second.show_counts(rt)
}
