ghost use Rattle.std.specs.Prelude.{◌≡◌, ℕ, ◌≤◌, min};
ghost use Rattle.plans.specs.Methods.{whole};
ghost use Rattle.std.proofs.Common.{rules};

/// A sending method, known by the number of blocks that it takes into a packet.
pub trait Method {
    ghost takes: { ℕ → ℕ → ℕ };

    /// How many of `due` blocks go into a packet that may have `interval`.
    fn take(&self, due: u32, interval: u32) -> u32
        ensures { result ≡ takes due interval };

    ghost due: { (w i : ℕ) → takes w i ≤ w };

    ghost within: { (w i : ℕ) → takes w i ≤ i };

    ghost moves: { (w i : ℕ) → 1 ≤ i → i ≤ w → 1 ≤ takes w i };
}

/// Sends what is due, as far as a packet may hold it.
#[derive(Clone, Copy)]
pub struct NonBlocking;

impl Method for NonBlocking {
    ghost takes = { min };

    ghost due = { Prim.search rules };

    ghost within = { Prim.search rules };

    ghost moves = { Prim.search rules };

    fn take(&self, due: u32, interval: u32) -> u32 {
        due.min(interval)
    }
}

/// Waits until a packet is full.
#[derive(Clone, Copy)]
pub struct Blocking;

impl Method for Blocking {
    ghost takes = { whole };

    ghost due = { Prim.search rules };

    ghost within = { Prim.search rules };

    ghost moves = { Prim.search rules };

    fn take(&self, due: u32, interval: u32) -> u32 {
        if due >= interval { interval } else { 0 }
    }
}
