//! What a kind of unit is, and the two fields of which units are made.

#![tactic(auto)]

mod bits24;
mod kind;
mod laying;
mod nibble;
mod texts;

pub use bits24::Bits24;
pub use kind::Kind;
pub use laying::lay;
pub use nibble::Nibble;
