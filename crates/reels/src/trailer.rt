ghost use Rattle.std.specs.Prelude.{◌≡◌};
ghost use Rattle.reels.specs.Trailers.{trailer_bytes, read_trailer};

/// What a trailer says: the place of the last record, if there is one, how many records there are, and
/// the stream.
#[derive(Clone, Copy, PartialEq, Eq, Debug)]
pub struct Trailer {
    pub last: Option<u32>,
    pub count: u32,
    // These stay numbers, since a trailer may name a stream that is none.
    pub event: u8,
    pub sfc: u8,
    pub dimension: u16,
}

impl Trailer {
    /// The twelve bytes of the trailer.
    #[tactic(auto, unfolding(crate::specs::Trailers::trailer_bytes))]
    pub fn to_bytes(self) -> [u8; 12]
        ensures { result ≡ trailer_bytes self }
    {
        let [l0, l1, l2, l3] = self.last.unwrap_or(u32::MAX).to_be_bytes();
        let [c0, c1, c2, c3] = self.count.to_be_bytes();
        let [d0, d1] = self.dimension.to_be_bytes();
        [l0, l1, l2, l3, c0, c1, c2, c3, self.event, self.sfc, d0, d1]
    }

    /// What twelve bytes say as a trailer.
    pub fn from_bytes(bytes: [u8; 12]) -> Trailer
        ensures { result ≡ read_trailer bytes }
    {
        let [l0, l1, l2, l3, c0, c1, c2, c3, event, sfc, d0, d1] = bytes;
        let last = u32::from_be_bytes([l0, l1, l2, l3]);
        Trailer {
            last: (last != u32::MAX).then_some(last),
            count: u32::from_be_bytes([c0, c1, c2, c3]),
            event,
            sfc,
            dimension: u16::from_be_bytes([d0, d1]),
        }
    }
}
