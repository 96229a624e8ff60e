use kinds::Bits24;

/// Four samples in the order in which they stand: every value is a unit.
// Four fields and no array, so that units lie in lists as plain values.
#[derive(Clone, Copy, PartialEq, Eq, Debug)]
pub struct PackUnit {
    pub first: Bits24,
    pub second: Bits24,
    pub third: Bits24,
    pub fourth: Bits24,
}

impl PackUnit {
    /// Four samples of 0.
    pub const SILENCE: PackUnit = PackUnit {
        first: Bits24::ZERO,
        second: Bits24::ZERO,
        third: Bits24::ZERO,
        fourth: Bits24::ZERO,
    };
}
