/// What a packet is, with its payload, the part of the packet after the header.
#[derive(Clone, Copy)]
pub enum Sorted<'a> {
    /// Blocks.
    Data(&'a [u8]),
    /// A header alone.
    Empty,
    /// No data: what stands after the header means nothing.
    Idle(&'a [u8]),
}
