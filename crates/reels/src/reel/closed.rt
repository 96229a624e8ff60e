ghost use Rattle.std.specs.Prelude.{◌≡◌};

use crate::reel::ClosedReel;

impl ClosedReel {
    /// How many bytes the reel has, its trailer included.
    pub fn length(&self) -> usize
        ensures { result ≡ self.now.length }
    {
        self.length
    }

    /// How many records the reel has.
    pub fn count(&self) -> u32
        ensures { result ≡ self.now.count }
    {
        self.count
    }
}
