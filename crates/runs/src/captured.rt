ghost use Rattle.runs.specs.Captured.{TwoPacketsCaptured};

/// Two packets captured as a reel of 96 bytes, which the check finds again.
pub fn two_packets_captured()
    ensures { TwoPacketsCaptured }
{}
