ghost use Rattle.std.specs.Prelude.{◌≡◌, ◌+◌, ◌≤◌, length, map};
ghost use Rattle.records.specs.Placing.{seen, records_left};
ghost use Rattle.records.specs.Walking.{over, passed};

use crate::record::Record;
use crate::sequence::Records;
use clock::not_later;

/// How far a walk over records has come: how many bytes and records it has passed, the place and the
/// cycle of the last one, and whether each cycle exceeded the one before.
#[derive(Clone, Copy)]
pub struct Walk {
    pub at: usize,
    pub count: u32,
    pub last: Option<u32>,
    pub cycle: Option<u32>,
    pub rising: bool,
}

impl Walk {
    /// One record more.
    fn pass(&mut self, next: Record<'_>)
        requires near { self.old.at + (6 + length next.packet.now) ≤ 65536 }
        requires few { self.old.count ≤ 65536 }
        ensures { self.new ≡ passed self.old (seen next.entry) }
    {
        self.last = Some(self.at as u32);
        self.at += 6 + next.packet.len();
        self.count += 1;
        self.rising = self.rising && !not_later(next.cycle, self.cycle);
        self.cycle = Some(next.cycle);
    }
}

/// Walks over records to the last one.
pub(crate) fn walk_over(records: Records<'_>) -> Walk
    ensures { result ≡ over (map (λ x. x.1) (records_left records.entry)) }
{
    let mut walk = Walk {
        at: 0,
        count: 0,
        last: None,
        cycle: None,
        rising: true,
    };
    // The contract holds for records from any position on, so the count is the walk's own and not the reader's.
    for (_, record) in records {
        walk.pass(record);
    }
    walk
}
