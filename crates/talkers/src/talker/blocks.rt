ghost use Rattle.std.specs.Prelude.{◌≡◌, ℕ, ◌+◌, ◌*◌, ◌<◌, ◌≤◌, length, take, drop, slice_index};
ghost use Rattle.clock.specs.Ticks.{start as start_of};
ghost use Rattle.plans.specs.Rates.{interval as interval_of};
ghost use Rattle.talkers.specs.Sending.{bad_score, due};
ghost use Rattle.talkers.specs.Views.{desk, score_of, state};

use crate::score::Score;
use crate::talker::Talker;
use crate::talker::parts::due_blocks;
use clock::start;
use kinds::Kind;
use plans::Method;

impl<K: Kind, M: Method> Talker<K, M> {
    /// Whether a score has too many blocks, other units than its blocks want, or fewer blocks than were
    /// sent.
    pub(super) fn bad_score(&self, score: Score<'_, K::Unit>) -> bool
        ensures { result ≡ bad_score (desk M.takes self.now) (score_of score.entry.arrivals.now score.entry.units.now) (state self.now) }
    {
        let blocks = score.arrivals.len();
        blocks > 65_536
            || score.units.len() != self.plan.dimension() as usize * blocks
            || blocks < self.place as usize
    }

    /// How many blocks the method takes, of those that have arrived by the start of a cycle.
    pub(super) fn blocks_taken(&self, arrivals: &[u64], cycle: u32) -> u32
        requires reached { self.now.place ≤ length arrivals.now }
        requires few { length arrivals.now ≤ 65536 }
        ensures value { result ≡ M.takes (due (start_of cycle) (drop self.now.place arrivals.now)) (interval_of self.now.plan.sfc) }
        ensures inside { self.now.place + result ≤ length arrivals.now }
        ensures within { result ≤ interval_of self.now.plan.sfc }
        ensures arrived { (k : ℕ) → k < result → slice_index arrivals.now (self.now.place + k) ≤ start_of cycle }
    {
        let due = due_blocks(&arrivals[self.place as usize..], start(cycle));
        self.method.take(due as u32, self.plan.interval() as u32)
    }

    /// The units of the next blocks of a score.
    pub(super) fn units_of<'a>(&self, units: &'a [K::Unit], blocks: u32) -> &'a [K::Unit]
        requires { self.now.plan.dimension * (self.now.place + blocks) ≤ length units.now }
        ensures { result.now ≡ take (self.now.plan.dimension * blocks) (drop (self.now.plan.dimension * self.now.place) units.now) }
    {
        let dimension = self.plan.dimension() as usize;
        let from = dimension * self.place as usize;
        &units[from..from + dimension * blocks as usize]
    }
}
