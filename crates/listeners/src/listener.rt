ghost use Rattle.std.specs.Prelude.{◌≡◌, ◌+◌, ◌*◌, ◌≤◌};
ghost use Rattle.listeners.specs.Cycles.{cycles_to};

use kinds::Kind;
use plans::Plan;

mod hear;
mod methods;
mod parts;

/// A listener on a plan: the number of the block that it expects next, how many it heard and how
/// many are missing, and the last cycle in which a packet was accepted.
#[derive(Drop)]
pub struct Listener<K: Kind> {
    plan: Plan<K>,
    next: u64,
    heard: u64,
    missed: u64,
    last: Option<u32>,
    ghost whole: { heard + missed ≡ next },
    ghost paced: { next ≤ 287 * cycles_to last },
    ghost early: { cycles_to last ≤ 4294967296 },
}
