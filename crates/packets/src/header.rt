ghost use Rattle.std.specs.Prelude.{◌≡◌, unwrap_or};
ghost use Rattle.packets.specs.Headers.{header_bytes};

/// The parts of a CIP header that differ from packet to packet.
#[derive(Clone, Copy)]
pub struct Header {
    /// The node that sends.
    pub sid: u8,
    /// The quadlets of a block.
    pub dbs: u8,
    /// The number of the first block, modulo 256.
    pub dbc: u8,
    /// The event type and the rate.
    pub fdf: u8,
    /// The stamp, if there is one.
    pub syt: Option<u16>,
}

impl Header {
    /// The eight bytes of the header.
    pub fn to_bytes(self) -> [u8; 8]
        ensures { result ≡ header_bytes self.sid self.dbs self.dbc self.fdf (unwrap_or self.syt 0xffff) }
    {
        let [upper, lower] = self.syt.unwrap_or(0xffff).to_be_bytes();
        [
            self.sid, self.dbs, 0, self.dbc, 0x90, self.fdf, upper, lower,
        ]
    }
}
