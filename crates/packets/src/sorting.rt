ghost use Rattle.std.specs.Prelude.{◌≡◌, Some, None, MatchResult};
ghost use Rattle.plans.specs.Streams.{stream};
ghost use Rattle.packets.specs.Sorting.{refusal, Sorts};

use crate::packet::Packet;
use crate::sorted::Sorted;
use faults::PacketFault;
use kinds::Kind;
use plans::Plan;

/// What some bytes are as a packet by a plan, or why they are refused: the smallest number wins.
pub fn sort<'a, K: Kind>(plan: &Plan<K>, packet: &'a [u8]) -> Result<Sorted<'a>, PacketFault>
    ensures { MatchResult result (λ sorted. (refusal (stream plan.now) packet.now ≡ None) × Sorts packet.entry sorted) (λ f. refusal (stream plan.now) packet.now ≡ Some f) }
{
    Packet::new(packet)?.sort(plan)
}
