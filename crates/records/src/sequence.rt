ghost use Rattle.std.specs.Prelude.{◌+◌, ◌≤◌, length};

use crate::record::{Record, split_first_record};
use faults::RecordPosition;

/// The records that stand whole in some bytes of a reel, one after another, each with its position.
#[derive(Clone, Copy)]
pub struct Records<'a> {
    pub(crate) rest: &'a [u8],
    pub(crate) position: RecordPosition,
    pub ghost few: { position.number ≤ position.place },
    pub ghost room: { position.place + length rest.now ≤ 65536 },
}

impl<'a> Iterator for Records<'a> {
    ghost use Rattle.std.specs.Iterator.{YieldsFirstBy, item_count};
    ghost use Rattle.records.specs.Placing.{as_placed, records_left};

    type Item = (RecordPosition, Record<'a>);

    ghost next_gives = { YieldsFirstBy as_placed records_left };

    ghost remaining = { item_count records_left };

    #[tactic(auto, using(crate::proofs::Reading::placed_none))]
    fn next(&mut self) -> Option<(RecordPosition, Record<'a>)> {
        let position = self.position;
        let (record, rest) = split_first_record(self.rest)?;
        let size = 6 + record.packet.len();
        self.rest = rest;
        self.position = RecordPosition {
            number: position.number + 1,
            place: position.place + size as u32,
        };
        Some((position, record))
    }
}
