use faults::RecordFault;

mod counting;

/// What has been counted of the answers so far.
#[derive(Clone, Copy, Default)]
pub struct Tally {
    pub gaps: u32,
    pub widest: u8,
    pub refused: u32,
    pub first: Option<RecordFault>,
}
