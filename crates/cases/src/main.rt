//! Grades reels that are given in hexadecimal, a line each, and prints what came of them.

#![tactic(auto)]

ghost use Rattle.std.specs.Prelude.{◌<◌};

use faults::{Located, PacketFault, RecordFault, UnitPosition};
use grading::grade_reel;
use pack::PackUnit;
use quadlets::Am824Unit;
use reports::line_of;
use std::alloc::AllocError;

/// The number of a hexadecimal digit; 0 for any other character.
fn digit(code: u8) -> u8
    ensures { result < 16 }
{
    // By its own ranges: `char::to_digit` would take capital letters too.
    match code {
        b'0'..=b'9' => code - b'0',
        b'a'..=b'f' => code - b'a' + 10,
        _ => 0,
    }
}

/// The bytes of a text of hexadecimal digits, two a byte.
fn bytes_of(rt: &HostRuntime, text: &str) -> Result<Vec<u8>, AllocError> {
    let (pairs, _) = text.as_bytes().as_chunks::<2>();
    pairs
        .iter()
        .map(|[high, low]| 16 * digit(*high) + digit(*low))
        .collect(rt.alloc())
}

/// Prints the first refusal of a run, with all that it carries.
fn show_first(rt: &HostRuntime, first: RecordFault) -> anyhow::Result<()> {
    let RecordFault { position, fault } = first;
    let number = position.number;
    let place = fault.refusal().place;
    print!(rt; "  record {number}: {first}, in the packet at {place}")?;
    if let PacketFault::Unit(Located { position, fault }) = fault {
        let UnitPosition { block, unit, .. } = position;
        print!(rt; ", block {block}, unit {unit}: {fault}")?;
    }
    println!(rt)?;
    Ok(())
}

/// Grades one reel and prints its line.
fn show(rt: &HostRuntime, name: &str, reel: &[u8]) -> anyhow::Result<()> {
    // The library fills lists of the caller's; 1,022 units are enough for any packet.
    let quadlets = &mut [Am824Unit::Midi0; 1022];
    let packs = &mut [PackUnit::SILENCE; 1022];
    let answer = grade_reel(reel, quadlets, packs);
    let line = line_of(rt.alloc(), answer)?;
    print!(rt; "{name}: {line}")?;
    if let Some(first) = answer.ok().and_then(|report| report.first) {
        show_first(rt, first)?;
    }
    Ok(())
}

fn run(rt: &HostRuntime) -> anyhow::Result<()> {
    for line in rt.lines(rt.alloc()) {
        let line = line?;
        if let Some((name, text)) = line.as_str().split_once(": ") {
            let reel = bytes_of(rt, text)?;
            show(rt, name, &reel)?;
        }
    }
    Ok(())
}

fn main(rt: HostRuntime) -> anyhow::Result<()> {
    run(&rt)
}
