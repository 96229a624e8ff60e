/// What an accepted packet brought: how many blocks are missing before it, the number of its first
/// block, how many blocks it holds, and the time of its stamped block.
#[derive(Clone, Copy, PartialEq, Eq, Debug)]
pub struct Heard {
    pub gap: u8,
    pub first: u64,
    pub blocks: u32,
    pub time: Option<u64>,
}
