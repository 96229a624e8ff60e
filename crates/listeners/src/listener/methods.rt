ghost use Rattle.std.specs.Prelude.{◌≡◌};
ghost use Rattle.listeners.specs.Views.{Fresh};

use crate::listener::Listener;
use kinds::Kind;
use plans::Plan;

impl<K: Kind> Listener<K> {
    /// A listener that expects block 0.
    pub fn new(plan: Plan<K>) -> Listener<K>
        ensures { Fresh plan result }
    {
        Listener {
            plan,
            next: 0,
            heard: 0,
            missed: 0,
            last: None,
        }
    }

    /// The number of the block that is expected next.
    pub fn next(&self) -> u64
        ensures { result ≡ self.now.next }
    {
        self.next
    }

    /// How many blocks were heard.
    pub fn heard(&self) -> u64
        ensures { result ≡ self.now.heard }
    {
        self.heard
    }

    /// How many blocks are missing.
    pub fn missed(&self) -> u64
        ensures { result ≡ self.now.missed }
    {
        self.missed
    }

    /// The last cycle in which a packet was accepted.
    pub fn last(&self) -> Option<u32>
        ensures { result ≡ self.now.last }
    {
        self.last
    }
}
