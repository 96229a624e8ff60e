//! Reads a reel from standard input, grades it, and prints the line that a price list quotes.

#![tactic(auto)]

use grading::grade_reel;
use pack::PackUnit;
use quadlets::Am824Unit;
use reports::line_of;
use std::io;
use std::io::Read;
use std::process::ExitCode;

/// Reads standard input to its end. Of what is longer than a reel may be it keeps one byte too many,
/// so that it is refused and not cut.
fn read_reel(rt: &HostRuntime) -> io::Result<Vec<u8>> {
    let mut input = rt.stdin();
    let mut reel = Vec::new(rt.alloc());
    input.by_ref().take(65_537).read_to_end(&mut reel)?;
    io::copy(&mut input, &mut io::sink())?;
    Ok(reel)
}

fn run(rt: &HostRuntime) -> anyhow::Result<()> {
    let reel = read_reel(rt)?;
    // The library fills lists of the caller's; 1,022 units are enough for any packet.
    let mut quadlets = [Am824Unit::Midi0; 1022];
    let mut packs = [PackUnit::SILENCE; 1022];
    let answer = grade_reel(&reel, &mut quadlets, &mut packs);
    let line = line_of(rt.alloc(), answer)?;
    print!(rt; "{line}")?;
    Ok(())
}

fn main(rt: HostRuntime) -> ExitCode {
    // The line on standard error begins with the program's name, so the answer is not handed on by `?`.
    match run(&rt) {
        Ok(()) => ExitCode::SUCCESS,
        Err(error) => {
            let _ = eprintln!(rt; "grade: {error}");
            ExitCode::FAILURE
        }
    }
}
