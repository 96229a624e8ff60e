ghost use Rattle.std.specs.Prelude.{◌≡◌};
ghost use Rattle.reels.specs.Plans.{event_of, sfc_of, dimension_of};
ghost use Rattle.reels.specs.declared.plan.ReelPlan.TheVariants.{Am824 as HeldAm824, Pack as HeldPack};

use am824::Am824;
use kinds::Kind;
use pack::Pack;
use plans::Plan;

/// The plan of a captured stream: a reel holds AM824 units or packs.
#[derive(Drop)]
pub enum ReelPlan {
    Am824(Plan<Am824>),
    Pack(Plan<Pack>),
}

// The arms of `sfc` and of `dimension` say the same of two types, which no one pattern can bind.
impl ReelPlan {
    /// The event type.
    pub fn event(&self) -> u8
        ensures { result ≡ event_of self.now }
    {
        match self {
            ReelPlan::Am824(_) => Am824::EVT,
            ReelPlan::Pack(_) => Pack::EVT,
        }
    }

    /// The sampling frequency code.
    pub fn sfc(&self) -> u8
        ensures { result ≡ sfc_of self.now }
    {
        match self {
            ReelPlan::Am824(plan) => plan.sfc(),
            ReelPlan::Pack(plan) => plan.sfc(),
        }
    }

    /// The units of a block.
    pub fn dimension(&self) -> u16
        ensures { result ≡ dimension_of self.now }
    {
        match self {
            ReelPlan::Am824(plan) => plan.dimension(),
            ReelPlan::Pack(plan) => plan.dimension(),
        }
    }
}

impl From<Plan<Am824>> for ReelPlan {
    ghost from_gives = { λ plan r. r ≡ HeldAm824 plan };

    fn from(plan: Plan<Am824>) -> ReelPlan {
        ReelPlan::Am824(plan)
    }
}

impl From<Plan<Pack>> for ReelPlan {
    ghost from_gives = { λ plan r. r ≡ HeldPack plan };

    fn from(plan: Plan<Pack>) -> ReelPlan {
        ReelPlan::Pack(plan)
    }
}
