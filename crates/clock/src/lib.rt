//! Ticks, cycles, SYT stamps and the eight-bit count of blocks.
//!
//! A second has 24,576,000 ticks and 8,000 cycles, so a cycle has 3,072 ticks. A stamp tells a time
//! modulo sixteen cycles.

#![tactic(auto)]

ghost use Rattle.std.specs.Prelude.{◌≡◌, ℕ, ◌+◌, ◌*◌, ◌%◌, ◌<◌, ◌≤◌};
ghost use Rattle.clock.specs.Counts.{gap_to};
ghost use Rattle.clock.specs.Cycles.{not_later};
ghost use Rattle.clock.specs.Ticks.{start as start_of, stamp as stamp_of, time_of, Told};

/// The tick at which a cycle starts.
pub fn start(cycle: u32) -> u64
    ensures { result ≡ start_of cycle }
{
    3072 * cycle as u64
}

/// Whether something was accepted before, in this cycle or a later one.
pub fn not_later(cycle: u32, last: Option<u32>) -> bool
    ensures { result ≡ not_later cycle last }
{
    last.is_some_and(|accepted| cycle <= accepted)
}

/// The stamp of a time: its cycle modulo 16 in the upper four bits, its tick in the cycle below.
/// In any cycle that starts at most sixteen cycles before, the stamp tells that time again.
pub fn stamp(time: u64) -> u16
    ensures value { result ≡ stamp_of time }
    ensures back { (c : ℕ) → start_of c ≤ time → time < start_of c + 49152 → Told c result time }
{
    (4096 * (time / 3072 % 16) + time % 3072) as u16
}

/// The one time that a stamp tells in a cycle.
pub fn told(cycle: u32, stamp: u16) -> u64
    ensures value { result ≡ time_of cycle stamp }
    ensures tells { Told cycle stamp result }
    ensures only { (t : ℕ) → Told cycle stamp t → t ≡ result }
{
    let from = start(cycle);
    let tick = 3072 * (stamp / 4096) as u64 + (stamp % 4096) as u64;
    from + (tick % 49152 + 49152 - from % 49152) % 49152
}

/// How many blocks, fewer than 256, lead from the next number to one with this count.
pub fn gap(next: u64, count: u8) -> u8
    ensures value { result ≡ gap_to next count }
    ensures leads { (next + result) % 256 ≡ count }
    ensures few { result < 256 }
{
    count.wrapping_sub((next % 256) as u8)
}
