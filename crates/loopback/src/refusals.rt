use am824::Am824;
use faults::UnitFault;
use kinds::Kind;
use quadlets::Am824Unit;
use samples::raw;
use texts::hex;

/// Prints what a call answered.
fn show_answer(
    rt: &HostRuntime,
    call: &str,
    answer: Result<Am824Unit, UnitFault>,
) -> anyhow::Result<()> {
    // Both answers are printed, so both have an arm.
    match answer {
        Ok(unit) => println!(rt; "  {call}: {unit}")?,
        Err(fault) => println!(rt; "  {call}: {fault}")?,
    }
    Ok(())
}

/// Prints what reading some bytes answered.
fn show_read(rt: &HostRuntime, bytes: &[u8]) -> anyhow::Result<()> {
    let code = hex(rt.alloc(), bytes)?;
    show_answer(rt, code.as_str(), Am824::read(bytes))
}

pub fn show(rt: &HostRuntime) -> anyhow::Result<()> {
    println!(rt; "Refused, each cause once:")?;
    let unit = Am824Unit::Midi0;
    let written = Am824::write(unit, &mut [0; 3]).map(|()| unit);
    show_answer(rt, " written to three bytes", written)?;
    show_read(rt, &[0x40, 0, 0])?;
    show_read(rt, &[0x43, 0, 0, 0])?;
    show_read(rt, &[0x41, 0xff, 0xff, 0xf8])?;
    show_read(rt, &[0x81, 0x90, 0x3c, 0])?;
    show_answer(rt, " 8388608 in 24 bits", raw(0, 8_388_608))
}
