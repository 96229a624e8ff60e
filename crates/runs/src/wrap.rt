ghost use Rattle.runs.specs.Wrap.{MissedAcrossTheWrap};

/// A run in which the second listener misses blocks where the eight-bit count starts over, and in
/// which blocks are left unsent and come later.
pub fn missed_across_the_wrap()
    ensures { MissedAcrossTheWrap }
{}
