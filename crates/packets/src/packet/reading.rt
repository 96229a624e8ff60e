ghost use Rattle.std.specs.Prelude.{◌≡◌, true, false, MatchResult};
ghost use Rattle.faults.specs.declared.packets.PacketFault.TheVariants.{Length};
ghost use Rattle.plans.specs.Streams.{stream};
ghost use Rattle.packets.specs.Sorting.{bad_length, blocks, dbc_of, idle, stamp_of, Payload};

use crate::packet::Packet;
use faults::PacketFault;
use kinds::Kind;
use plans::Plan;

impl<'a> Packet<'a> {
    /// Some bytes as a packet, where they have a length that packets have.
    pub fn new(bytes: &'a [u8]) -> Result<Packet<'a>, PacketFault>
        ensures { MatchResult result (λ p. (bad_length bytes.now ≡ false) × (p.bytes ≡ bytes.entry)) (λ f. (bad_length bytes.now ≡ true) × (f ≡ Length)) }
    {
        if bytes.len() < 8 || bytes.len() > 4096 || bytes.len() % 4 != 0 {
            return Err(PacketFault::Length);
        }
        Ok(Packet { bytes })
    }

    /// DBC: the number of the first block, modulo 256.
    pub fn dbc(&self) -> u8
        ensures { result ≡ dbc_of self.now.bytes.now }
    {
        self.bytes[3]
    }

    /// Whether FDF says that there is no data.
    pub fn is_idle(&self) -> bool
        ensures { result ≡ idle self.now.bytes.now }
    {
        self.bytes[5] == 0xff
    }

    /// SYT, unless it says that there is no time.
    pub fn stamp(&self) -> Option<u16>
        ensures { result ≡ stamp_of self.now.bytes.now }
    {
        let syt = u16::from_be_bytes([self.bytes[6], self.bytes[7]]);
        (syt != 0xffff).then_some(syt)
    }

    /// The part of the packet after the header.
    pub fn payload(&self) -> &'a [u8]
        ensures { Payload self.now.bytes result }
    {
        &self.bytes[8..]
    }

    /// The whole blocks of the payload by a plan.
    pub fn blocks<K: Kind>(&self, plan: &Plan<K>) -> usize
        ensures { result ≡ blocks (stream plan.now) self.now.bytes.now }
    {
        self.payload().len() / plan.block_bytes()
    }
}
