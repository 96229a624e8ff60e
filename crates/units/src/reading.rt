ghost use Rattle.std.specs.Prelude.{◌≡◌, ◌*◌, ◌≤◌, List, ◌++◌, length, drop, Ok};
ghost use Rattle.units.specs.Rows.{row, whether, row_answer, row_left};

use crate::fault::RowFault;
use faults::{Locate, Located, UnitFault};
use kinds::Kind;

// `row` goes by a size and a meaning and not by a kind, since a stream, which names no kind, has rows too.
/// Whether the first `count` units of `bytes` are units; else the first that is refused.
#[tactic(auto, using(crate::proofs::Rows::reached_located, crate::proofs::Rows::reached_all))]
pub fn check_row<K: Kind>(bytes: &[u8], count: usize) -> Result<(), Located<usize, UnitFault>>
    ensures { result ≡ whether (row (4 * K.size) K.heard count bytes.now) }
{
    let step = 4 * K::size() as usize;
    let mut rest = bytes;
    // An iterator of units would hold the rest, the step and the count, and say no more.
    for i in 0..count {
        K::read(rest).at(i)?;
        rest = &rest[step..];
    }
    Ok(())
}

// A walk beside that of `check_row`, since a refusal leaves the list untouched.
/// Writes the units at the front of `bytes` over the whole list, up to the first refused.
fn fill_row<K: Kind>(bytes: &[u8], list: &mut [K::Unit])
    ensures { (us : List K.Unit) → row (4 * K.size) K.heard (length list.old) bytes.now ≡ Ok us → list.new ≡ us }
{
    let step = 4 * K::size() as usize;
    let mut rest = bytes;
    for slot in list {
        // By a return and no `?`: the row was checked, and there is no fault to tell.
        let Ok(unit) = K::read(rest) else {
            return;
        };
        *slot = unit;
        rest = &rest[step..];
    }
}

// A count beside the list, whose rest is the caller's and stays.
/// Reads the first `count` units of `bytes` to the front of `list` and leaves its rest, or refuses
/// and leaves all.
pub fn read_row<K: Kind>(bytes: &[u8], count: usize, list: &mut [K::Unit]) -> Result<(), RowFault>
    ensures answer { result ≡ row_answer count (row (4 * K.size) K.heard count bytes.now) list.old }
    ensures units { list.new ≡ row_left count (row (4 * K.size) K.heard count bytes.now) list.old }
{
    if list.len() < count {
        return Err(RowFault::List);
    }
    check_row::<K>(bytes, count)?;
    fill_row::<K>(bytes, &mut list[..count]);
    Ok(())
}
