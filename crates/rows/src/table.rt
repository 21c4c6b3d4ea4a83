// The catalogue as one constant table of 199 rows: a column for each of a row's fifteen numbers, each in its own type (src/columns.rt),
// and one of what follows from its bits, the last start that it may have in a frame. A column is built anew at every read. So who asks
// for the bits of many signals holds theirs (`widths`), the test of a book the last starts (`last_starts`), and what is asked for each
// signal of a frame goes by the signal's shape instead.
ghost use Rattle.std.specs.Prelude.{◌≡◌, ◌<◌, get_or};
ghost use Rattle.rows.specs.Rows.{rows, blank};
ghost use Rattle.rows.specs.Kinds.{kind_numbered};
ghost use Rattle.rows.specs.Widths.{widths_of, last_starts_of};

use crate::columns::{
    BITS, FIRSTS_1, FIRSTS_2, FIRSTS_3, HIGHESTS, KINDS_1, KINDS_2, KINDS_3, LAST_STARTS, LASTS_1,
    LASTS_2, LASTS_3, LOWESTS, NUMBERS, OFFSETS, RESOLUTIONS,
};
use crate::{Mark, MarkKind, Row};

// The kind of marks that a column has by its number.
// Kept: the columns have numbers, no kinds; tried, a column of kinds makes the proof of `row_at` outgrow its memory.
fn kind_of(number: u8) -> MarkKind
    ensures { result ≡ kind_numbered number }
{
    match number {
        0 => MarkKind::Unmarked,
        1 => MarkKind::Invalid,
        2 => MarkKind::Absent,
        3 => MarkKind::Error,
        _ => MarkKind::Reserved,
    }
}

// The bits of each row: a caller that asks for those of many signals holds them, since a const array is built anew at every read.
pub fn widths() -> [u8; 199]
    ensures { result ≡ widths_of rows }
{
    BITS
}

// The last start of each row: the highest at which a signal of its bits ends within a frame.
pub fn last_starts() -> [u8; 199]
    ensures { result ≡ last_starts_of rows }
{
    LAST_STARTS
}

// The row at a place, of 199.
pub fn row_at(place: usize) -> Row
    requires { place < 199 }
    ensures { result ≡ get_or rows place blank }
{
    Row {
        number: NUMBERS[place],
        bits: u32::from(BITS[place]),
        resolution: RESOLUTIONS[place],
        offset: OFFSETS[place],
        lowest: LOWESTS[place],
        highest: HIGHESTS[place],
        mark1: Mark {
            kind: kind_of(KINDS_1[place]),
            first: FIRSTS_1[place],
            last: LASTS_1[place],
        },
        mark2: Mark {
            kind: kind_of(KINDS_2[place]),
            first: FIRSTS_2[place],
            last: LASTS_2[place],
        },
        mark3: Mark {
            kind: kind_of(KINDS_3[place]),
            first: FIRSTS_3[place],
            last: LASTS_3[place],
        },
    }
}
