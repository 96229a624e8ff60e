/// What is to be sent: for each block the tick at which it arrives, and its units one after another.
// Two lists of the caller's, since how many units a block has is a number of the plan, not a type.
#[derive(Clone, Copy)]
pub struct Score<'a, U> {
    pub arrivals: &'a [u64],
    pub units: &'a [U],
}
