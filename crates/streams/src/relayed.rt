use faults::PacketFault;
use listeners::Heard;
use talkers::Sent;

/// What an accepted send wrote, and what the first listener answered to it.
#[derive(Clone, Copy)]
pub struct Relayed {
    pub sent: Sent,
    pub heard: Result<Heard, PacketFault>,
}
