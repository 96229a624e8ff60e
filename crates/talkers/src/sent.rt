/// What a send wrote: so many blocks, in a packet of so many bytes.
// The length beside the bytes, since these are the caller's and are lent for the call alone.
#[derive(Clone, Copy, PartialEq, Eq, Debug)]
pub struct Sent {
    pub blocks: u32,
    pub length: u32,
}
