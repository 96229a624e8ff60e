//! The kind of AM824 units: IEC 60958 subframes, raw samples and MIDI bytes, one quadlet each.

#![tactic(auto)]

mod codec;
mod kind;

pub use kind::Am824;
