ghost use Rattle.std.specs.Prelude.{◌≡◌};
ghost use Rattle.kinds.specs.Codes.{read_front};
ghost use Rattle.am824.specs.Reading.{heard};
ghost use Rattle.examples.specs.Carrying.{in_packet, in_record};

use am824::Am824;
use faults::{Locate, PacketFault, RecordFault, RecordPosition, UnitPosition};
use kinds::Kind;
use quadlets::Am824Unit;

/// A unit read at a position of a packet: its fault becomes the packet's.
pub fn read_in_packet(bytes: &[u8], position: UnitPosition) -> Result<Am824Unit, PacketFault>
    ensures { result ≡ in_packet position (read_front 4 heard bytes.now) }
{
    Ok(Am824::read(bytes).at(position)?)
}

/// The same in the packet of a record: the packet's fault becomes the record's.
pub fn read_in_record(
    bytes: &[u8],
    position: UnitPosition,
    at: RecordPosition,
) -> Result<Am824Unit, RecordFault>
    ensures { result ≡ in_record at (in_packet position (read_front 4 heard bytes.now)) }
{
    Ok(read_in_packet(bytes, position).at(at)?)
}
