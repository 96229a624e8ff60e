//! Worked runs: each is a call whose contract states the answer in full.

#![tactic(auto)]

mod carrying;
mod streams;
mod word;
mod worked_units;

pub use carrying::{read_in_packet, read_in_record};
pub use streams::{
    gap_where_the_count_starts_over, last_tick_of_a_cycle, sent_with_blocking,
    sent_without_blocking, time_heard_in_cycle_twenty,
};
pub use word::{Word, WordUnit};
pub use worked_units::{
    four_packed_samples, midi_byte_beyond_the_count, minus_sixteen_in_twenty_bits,
    padding_that_is_not_zero, unknown_label,
};
