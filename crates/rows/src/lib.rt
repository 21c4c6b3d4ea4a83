// The signal catalogue as a table: the 199 signals of QC/T 1201.5-2023, one row each. specs/Rows.antt has the rows to read;
// specs/Rule.antt the rule that the whole table keeps.
#![tactic(auto)]

mod columns;
mod table;

pub use table::{last_starts, row_at, widths};

// The kinds of marks. What is unmarked has no code.
#[derive(Clone, Copy, Debug, PartialEq, Eq)]
pub enum MarkKind {
    Unmarked,
    Invalid,
    Absent,
    Error,
    Reserved,
}

// Codes of a signal that are no values, from the first to the last; none where the last is below the first.
#[derive(Clone, Copy)]
pub struct Mark {
    pub kind: MarkKind,
    pub first: u32,
    pub last: u32,
}

// A signal: resolution and offset are in thousandths of the printed unit, lowest and highest are raw counts.
#[derive(Clone, Copy)]
pub struct Row {
    pub number: u32,
    pub bits: u32,
    pub resolution: u16,
    pub offset: i32,
    pub lowest: u32,
    pub highest: u32,
    pub mark1: Mark,
    pub mark2: Mark,
    pub mark3: Mark,
}
