use crate::worked::Worked;
use plans::{Blocking, Method, NonBlocking};
use talkers::{Sent, Talker};
use texts::hex;

/// Sends the score in cycles 1 to 3 and prints each packet.
fn send_all<M: Method + Drop>(
    rt: &HostRuntime,
    worked: &Worked,
    method: M,
    delay: u32,
) -> anyhow::Result<()> {
    let mut talker = Talker::new(worked.plan, method, 1, delay)?;
    for cycle in 1..4u32 {
        let mut bytes = [0; 72];
        // Both answers are printed, so both have an arm.
        match talker.send(worked.score(), cycle, &mut bytes) {
            Ok(Sent { blocks, length }) => {
                let header = hex(rt.alloc(), &bytes[..8])?;
                let stamp = hex(rt.alloc(), &bytes[6..8])?;
                println!(rt;
                    "  cycle {cycle}:{header}, {blocks} blocks, {length} bytes, stamp{stamp}"
                )?
            }
            Err(fault) => println!(rt; "  cycle {cycle}: {fault}")?,
        }
    }
    Ok(())
}

pub fn show(rt: &HostRuntime) -> anyhow::Result<()> {
    let worked = Worked::new()?;
    println!(rt; "Ten silent blocks sent without blocking:")?;
    send_all(rt, &worked, NonBlocking, worked.delay(false)?)?;
    println!(rt; "The same sent blocking:")?;
    send_all(rt, &worked, Blocking, 8_704)?;
    let waiting = worked.delay(true)?;
    println!(rt; "The same with the default delay of a blocking sender, {waiting} ticks:")?;
    send_all(rt, &worked, Blocking, waiting)
}
