//! The rows that closed words show.

ghost use Rattle.std.specs.Prelude.{◌≡◌, ◌<◌, ◌≤◌, List, [], length, slice_index, vec_capacity};
ghost use Rattle.cmh_rw.specs.declared.row.Row.{Row};
ghost use Rattle.cmh_rw.specs.Seats.{words_of};
ghost use Rattle.cmh_board.specs.Closing.{ShowsRows};

use cmh_rw::{Closed, FIRST_ROW, ROW_COUNT, Row};

/// Adds the rows that closed words show.
pub(crate) fn read_closed(closed: &Closed, rows: &mut Vec<Row>)
    requires empty { rows.old.items ≡ [] }
    requires room { (list : List Row) × ShowsRows (words_of closed.now) list
        × (length list ≤ vec_capacity rows.old) }
    ensures { (list : List Row) → ShowsRows (words_of closed.now) list → rows.new.items ≡ list }
{
    let count = word_of(closed, ROW_COUNT) as usize;
    for n in 0..count {
        let code = word_of(closed, FIRST_ROW + n);
        rows.push_reserved(Row::from_code(code));
    }
}

/// The word of that number. There is one.
fn word_of(closed: &Closed, n: usize) -> u64
    ensures { result ≡ slice_index (words_of closed.now) n }
{
    closed.word(n).unwrap_or(0)
}
