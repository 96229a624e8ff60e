ghost use Rattle.std.specs.Prelude.{◌≡◌, ◌+◌, ◌*◌, ◌≤◌, length, Some, Err, MatchResult};
ghost use Rattle.faults.specs.Packets.{carried};
ghost use Rattle.plans.specs.Streams.{stream};
ghost use Rattle.listeners.specs.Hearing.{count, time, position_of, read_refusal, Reads};

use clock::told;
use faults::{Located, PacketFault, UnitFault, UnitPosition};
use kinds::Kind;
use packets::Packet;
use plans::Plan;
use units::{RowFault, read_row};

// By the packet alone: a `Sorted` beside it would have to be shown to be that packet's.
/// How many blocks a packet counts: an idle one none.
pub fn count_of<K: Kind>(plan: &Plan<K>, packet: &Packet<'_>) -> u32
    ensures { result ≡ count (stream plan.now) packet.now.bytes.now }
{
    if packet.is_idle() {
        return 0;
    }
    packet.blocks(plan) as u32
}

/// The time of a packet's stamped block, if it has one.
pub fn time_in(cycle: u32, packet: &Packet<'_>) -> Option<u64>
    ensures { result ≡ time cycle packet.now.bytes.now }
{
    if packet.is_idle() {
        return None;
    }
    packet.stamp().map(|stamp| told(cycle, stamp))
}

/// Where the unit at an index of a packet stands.
fn position<K: Kind>(dimension: u16, index: usize) -> UnitPosition
    requires some { 1 ≤ dimension }
    requires inside { 8 + 4 * K.size * index ≤ 4096 }
    ensures { result ≡ position_of (4 * K.size) dimension index }
{
    let dimension = dimension as usize;
    UnitPosition {
        block: (index / dimension) as u16,
        unit: (index % dimension) as u16,
        offset: (8 + 4 * K::size() as usize * index) as u16,
    }
}

/// Refuses a packet for the fault of its unit at an index.
fn refuse_unit<K: Kind>(dimension: u16, at: Located<usize, UnitFault>) -> Result<(), PacketFault>
    requires some { 1 ≤ dimension }
    requires inside { 8 + 4 * K.size * at.position ≤ 4096 }
    ensures { result ≡ Err (carried (record { position = position_of (4 * K.size) dimension at.position; fault = at.fault })) }
{
    let position = position::<K>(dimension, at.position);
    let fault = at.fault;
    Err(Located { position, fault }.into())
}

// Bytes and no `Packet`: a weighing hands on what it found, and not what it looked at.
/// Reads the units of a packet's blocks to the front of a list, or refuses and leaves the list.
pub fn read_units<K: Kind>(
    plan: &Plan<K>,
    packet: &[u8],
    blocks: u32,
    list: &mut [K::Unit],
) -> Result<(), PacketFault>
    requires whole { 8 + 4 * K.size * (plan.now.dimension * blocks) ≤ length packet.now }
    requires short { length packet.now ≤ 4096 }
    ensures { MatchResult result (λ _. Reads (stream plan.now) blocks packet.now list.old list.new) (λ f. (read_refusal (stream plan.now) blocks packet.now (length list.old) ≡ Some f) × (list.new ≡ list.old)) }
{
    let dimension = plan.dimension();
    let units = dimension as usize * blocks as usize;
    // By cases: in a closure for `map_err` nothing is known of the index (`map_err-requires` is not proved).
    match read_row::<K>(&packet[8..], units, list) {
        Ok(()) => Ok(()),
        Err(RowFault::List) => Err(PacketFault::List),
        Err(RowFault::Unit(at)) => refuse_unit::<K>(dimension, at),
    }
}
