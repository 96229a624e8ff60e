//! Telling captures: each is made with the library, compared with its file, and graded.
//!
//! With the name of a capture as its argument the program writes that reel to standard output, which
//! is how the files were made.

#![tactic(auto)]

mod capture;
mod runs;

use crate::capture::Capture;
use grading::grade_reel;
use pack::PackUnit;
use quadlets::Am824Unit;
use reports::line_of;
use std::io::Write;
use std::{env, fs};

/// Makes a capture, compares it with the file of its name, and prints its line.
fn show(rt: &HostRuntime, capture: Capture) -> anyhow::Result<()> {
    let made = capture.reel(rt)?;
    let file = format!(in rt.alloc(); "{capture}.reel")?;
    let kept = fs::read(rt, file.as_str())?;
    let length = made.len();
    let same = if made == kept { "as" } else { "not as" };
    println!(rt; "{file}: {length} bytes, {same} it is made here")?;
    // The library fills lists of the caller's; 1,022 units are enough for any packet.
    let quadlets = &mut [Am824Unit::Midi0; 1022];
    let packs = &mut [PackUnit::SILENCE; 1022];
    let answer = grade_reel(&made, quadlets, packs);
    let line = line_of(rt.alloc(), answer)?;
    print!(rt; "  {line}")?;
    Ok(())
}

fn run(rt: &HostRuntime) -> anyhow::Result<()> {
    if let Some(name) = env::args(rt)?.nth(1) {
        // A name that no capture has gives the clean one.
        let capture: Capture = name.as_str().parse().unwrap_or_default();
        rt.stdout().write_all(&capture.reel(rt)?)?;
        return Ok(());
    }
    for capture in Capture::ALL {
        show(rt, capture)?;
    }
    Ok(())
}

fn main(rt: HostRuntime) -> anyhow::Result<()> {
    run(&rt)
}
