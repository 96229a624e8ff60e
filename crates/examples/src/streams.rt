ghost use Rattle.std.specs.Prelude.{◌≡◌};
ghost use Rattle.examples.specs.Streams.{WithoutBlocking, WithBlocking, LastTick};

/// Ten blocks sent without blocking: seven, three and none, with their headers.
pub fn sent_without_blocking()
    ensures { WithoutBlocking }
{}

/// The same blocks sent blocking: none, then eight.
pub fn sent_with_blocking()
    ensures { WithBlocking }
{}

/// SYT 2BFFh is a time, and 2C00h is refused with 11.
pub fn last_tick_of_a_cycle()
    ensures { LastTick }
{}

/// SYT 2A00h heard in cycle 20 tells tick 107,008.
pub fn time_heard_in_cycle_twenty() -> u64
    ensures { result ≡ 107008 }
{
    clock::told(20, 0x2a00)
}

/// After block 249 a packet with count 4 has lost ten blocks.
pub fn gap_where_the_count_starts_over() -> u8
    ensures { result ≡ 10 }
{
    clock::gap(250, 4)
}
