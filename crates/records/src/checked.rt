/// What a check found: how many records a reel has, and whether each cycle exceeds the one before.
#[derive(Clone, Copy, PartialEq, Eq, Debug)]
pub struct Checked {
    pub count: u32,
    pub rising: bool,
}
