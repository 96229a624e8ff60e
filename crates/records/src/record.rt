ghost use Rattle.std.specs.Prelude.{◌≡◌, true, false, drop, MatchOption};
ghost use Rattle.records.specs.Reading.{whole, front, front_size};
ghost use Rattle.records.specs.Placing.{seen};

/// A packet in a reel, and the cycle in which it was heard.
#[derive(Clone, Copy)]
pub struct Record<'a> {
    pub cycle: u32,
    pub packet: &'a [u8],
}

/// The record that stands whole at the front of some bytes, if one does, and the bytes behind it.
pub(crate) fn split_first_record(bytes: &[u8]) -> Option<(Record<'_>, &[u8])>
    ensures { MatchOption result (whole bytes.now ≡ false) (λ x. (whole bytes.now ≡ true) × (seen x.0 ≡ front bytes.now) × (x.1.now ≡ drop (front_size bytes.now) bytes.now)) }
{
    let (cycle, rest) = bytes.split_first_chunk::<4>()?;
    let (length, rest) = rest.split_first_chunk::<2>()?;
    let (packet, rest) = rest.split_at_checked(u16::from_be_bytes(*length) as usize)?;
    let cycle = u32::from_be_bytes(*cycle);
    Some((Record { cycle, packet }, rest))
}

/// The record that stands whole at the front of some bytes, if one does.
pub fn first_record(bytes: &[u8]) -> Option<Record<'_>>
    ensures { MatchOption result (whole bytes.now ≡ false) (λ x. (whole bytes.now ≡ true) × (record { cycle = x.cycle; packet = x.packet.now } ≡ front bytes.now)) }
{
    let (record, _) = split_first_record(bytes)?;
    Some(record)
}
