ghost use Rattle.std.specs.Prelude.{◌≡◌, ◌+◌, ◌<◌, ◌≤◌, [], ◌∷◌, ◌++◌, length};
ghost use Rattle.reels.specs.Bytes.{bytes2, bytes4};
ghost use Rattle.reels.specs.Full.{too_long};
ghost use Rattle.reels.specs.Records.{record_bytes, size_of};
ghost use Rattle.reels.specs.Writing.{written};

/// Whether records of an extent and a trailer are too many bytes.
pub(crate) fn too_long(extent: usize, room: usize) -> bool
    requires { extent + 12 < 18446744073709551616 }
    ensures { result ≡ too_long extent room }
{
    room < extent + 12 || extent + 12 > 65_536
}

// A place beside the bytes: what stays before it and behind the part is in the promise.
/// Writes a part over the bytes from a place on.
pub(crate) fn put(bytes: &mut [u8], at: usize, part: &[u8])
    requires { at + length part.now ≤ length bytes.old }
    ensures { bytes.new ≡ written bytes.old at part.now }
{
    bytes[at..at + part.len()].copy_from_slice(part);
}

/// What stands before a packet: its cycle and its length.
fn head(cycle: u32, length: u16) -> [u8; 6]
    ensures { result ≡ bytes4 cycle ++ bytes2 length }
{
    let [c0, c1, c2, c3] = cycle.to_be_bytes();
    let [l0, l1] = length.to_be_bytes();
    [c0, c1, c2, c3, l0, l1]
}

/// Writes a record at a place.
pub(crate) fn put_record(bytes: &mut [u8], at: usize, cycle: u32, packet: &[u8])
    requires room { at + (6 + length packet.now) ≤ length bytes.old }
    requires short { length packet.now < 65536 }
    ensures { bytes.new ≡ written bytes.old at (record_bytes (record { cycle = cycle; packet = packet.now })) }
{
    put(bytes, at, &head(cycle, packet.len() as u16));
    put(bytes, at + 6, packet);
}
