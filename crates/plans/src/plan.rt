ghost use Rattle.std.specs.Prelude.{◌≡◌, ◌+◌, ◌*◌, ◌≤◌, ⊤};
ghost use Rattle.plans.specs.Rates.{interval as interval_of};

use kinds::Kind;
use std::alloc::AllocError;
use std::marker::PhantomData;

mod methods;
mod stamped;

/// A stream that fits the bus: blocks of `dimension` units of a kind at a rate.
#[derive(Drop)]
pub struct Plan<K: Kind> {
    kind: PhantomData<K>,
    // A code and no enum: a plan keeps the plain numbers that FDF and a trailer carry.
    sfc: u8,
    dimension: u16,
    ghost rated: { sfc ≤ 6 },
    ghost some: { 1 ≤ dimension },
    ghost fits: { 2 + interval_of sfc * dimension * K.size ≤ 1024 },
}

// Written out: no `Clone` is derived for a struct with a parameter and a ghost field.
impl<K: Kind> Clone for Plan<K> {
    ghost is_clone = { λ plan copy. copy ≡ plan };

    ghost is_infallible = { λ _. ⊤ };

    fn clone(&self) -> Result<Plan<K>, AllocError> {
        Ok(*self)
    }
}

impl<K: Kind> Copy for Plan<K> {}
