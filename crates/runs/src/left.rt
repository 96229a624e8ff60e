ghost use Rattle.runs.specs.Left.{LeftBlocksComeLater};

/// A run in which a send leaves as many blocks as SYT_INTERVAL, and in which as many packets are
/// accepted after it: the blocks have come.
pub fn left_blocks_come_later()
    ensures { LeftBlocksComeLater }
{}
