ghost use Rattle.std.specs.Prelude.{◌+◌, ◌*◌, ◌≤◌};

use crate::full::ReelFull;
use crate::trailer::Trailer;

mod appending;
mod closed;
mod closing;

/// A reel that takes records: the trailer that it would get now, and the bytes of its records.
#[derive(Drop)]
pub struct OpenReel {
    trailer: Trailer,
    // The bytes are the caller's and are passed at each call, so how many are used is kept here.
    used: usize,
    ghost room: { used + 12 ≤ 65536 },
    ghost sized: { 6 * trailer.count ≤ used },
}

/// A reel that has its trailer and takes no more records.
#[derive(Drop)]
pub struct ClosedReel {
    length: usize,
    count: u32,
}

/// A closing that was refused, with the reel, which is still open.
#[derive(Drop)]
pub struct NotClosed {
    pub reel: OpenReel,
    pub fault: ReelFull,
}
