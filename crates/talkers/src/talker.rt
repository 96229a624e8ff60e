ghost use Rattle.std.specs.Prelude.{◌≤◌};

use kinds::Kind;
use plans::Plan;

mod blocks;
mod header;
mod methods;
mod parts;
mod send;

/// A talker on a plan: it keeps the place that it has reached in the score, and the last cycle in
/// which a send was accepted.
#[derive(Drop)]
pub struct Talker<K: Kind, M> {
    plan: Plan<K>,
    method: M,
    sid: u8,
    delay: u16,
    place: u32,
    last: Option<u32>,
    ghost source: { sid ≤ 63 },
    ghost soon: { delay ≤ 49151 },
}
