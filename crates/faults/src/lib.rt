// The fault sum: what the 27 fault counts of a pack, 1901 to 1927, say together.
//
// For a gateway that has read the counts of table 19 into a slice, row 1901 first. `sum` has no `requires`: a slice of
// another length, or with a count too wide for its signal, is refused and nothing is summed. `specs/Sum.antt` says what
// is counted over which rows.
#![tactic(auto)]

ghost use Rattle.std.specs.Prelude.{◌≡◌, ◌≤◌, length, Err};
ghost use Rattle.faults.specs.Rows.{row_count, rows_between, level_rows, one_bit_rows, InTable};
ghost use Rattle.faults.specs.Counts.{raw_of_spec, level_of_spec, stands_at_spec, raw_below, how_many_spec, all_of, highest_of_spec};
ghost use Rattle.faults.specs.Sum.{fault_refusal, all_fit, is_emergency_spec, answer_to};

use catalogue::Raw;

#[derive(Clone, Copy, Debug, PartialEq, Eq)]
pub struct FaultSum {
    // The highest level.
    pub highest: u32,
    // How many level rows stand at 1, 2 and 3.
    pub at_1: u32,
    pub at_2: u32,
    pub at_3: u32,
    // How many one-bit faults are set.
    pub set: u32,
    pub emergency: bool,
    // 1901 tells the highest level.
    pub agrees: bool,
}

#[derive(Clone, Copy, Debug, PartialEq, Eq)]
pub enum FaultRefusal {
    // There are more counts than rows, or fewer.
    NotTwentySeven,
    // A count has more bits than its signal.
    TooWide,
}

// Document 01's number of each refusal.
impl From<FaultRefusal> for u32 {
    ghost from_gives = { λ why number. number ≡ fault_refusal (Err why) };

    fn from(why: FaultRefusal) -> u32 {
        match why {
            FaultRefusal::NotTwentySeven => 31,
            FaultRefusal::TooWide => 32,
        }
    }
}

// The rows of the slice: the first, the last, and how many.
const FIRST_ROW: usize = 1901;

const LAST_ROW: usize = 1927;

const ROW_COUNT: usize = 27;

// The row in which the pack itself tells the highest level.
const TOLD_ROW: usize = FIRST_ROW;

// What the counts of one, two and five bits are below.
const ONE_BIT: u32 = 2;

const TWO_BITS: u32 = 4;

const FIVE_BITS: u32 = 32;

// The counts of the rows, row 1901 first. Who asks for one has seen that there are as many as rows.
#[derive(Clone, Copy)]
struct Counts<'a> {
    each: &'a [u32],
    ghost whole: { length each.now ≡ row_count },
}

// The raw count of a row.
fn raw_of(counts: Counts<'_>, row: usize) -> Raw
    requires { InTable (length counts.each.now) row row }
    ensures { result ≡ raw_of_spec counts.entry.each.now row }
{
    Raw(counts.each[row - FIRST_ROW])
}

fn stands_at(counts: Counts<'_>, row: usize, wanted: u32) -> bool
    requires { InTable (length counts.each.now) row row }
    ensures { result ≡ stands_at_spec counts.entry.each.now wanted row }
{
    raw_of(counts, row).0 == wanted
}

// Kept, here and in the two functions below: a loop over rows and not over the part of the slice that has them, for which
// `from <= to` would have to be asked; no `requires` may be tighter than it is.

// How many of the rows `from` to `to` stand at `wanted`.
fn how_many(counts: Counts<'_>, from: usize, to: usize, wanted: u32) -> u32
    requires { InTable (length counts.each.now) from to }
    ensures { (result ≡ how_many_spec (stands_at_spec counts.entry.each.now wanted) (rows_between from to)) × (result ≤ row_count) }
{
    let mut n: u32 = 0;
    for row in from..=to {
        n += u32::from(stands_at(counts, row, wanted));
    }
    n
}

// The highest count among the rows `from` to `to`.
fn highest_of(counts: Counts<'_>, from: usize, to: usize) -> u32
    requires { InTable (length counts.each.now) from to }
    ensures { result ≡ highest_of_spec (level_of_spec counts.entry.each.now) (rows_between from to) }
{
    let mut highest: u32 = 0;
    for row in from..=to {
        highest = highest.max(raw_of(counts, row).0);
    }
    highest
}

// Whether each of the rows `from` to `to` has a count below `limit`.
fn all_below(counts: Counts<'_>, from: usize, to: usize, limit: u32) -> bool
    requires { InTable (length counts.each.now) from to }
    ensures { result ≡ all_of (raw_below counts.entry.each.now limit) (rows_between from to) }
{
    let mut all = true;
    for row in from..=to {
        all &= raw_of(counts, row).0 < limit;
    }
    all
}

fn all_fit(counts: Counts<'_>) -> bool
    ensures { result ≡ all_fit counts.entry.each.now }
{
    all_below(counts, FIRST_ROW, 1914, TWO_BITS)
        & all_below(counts, 1915, 1922, ONE_BIT)
        & all_below(counts, 1923, 1923, FIVE_BITS)
        & all_below(counts, 1924, 1924, ONE_BIT)
        & all_below(counts, 1925, 1925, TWO_BITS)
        & all_below(counts, 1926, LAST_ROW, ONE_BIT)
}

fn highest_level(counts: Counts<'_>) -> u32
    ensures { result ≡ highest_of_spec (level_of_spec counts.entry.each.now) level_rows }
{
    highest_of(counts, 1902, 1914).max(highest_of(counts, 1925, 1925))
}

fn levels_at(counts: Counts<'_>, level: u32) -> u32
    ensures { result ≡ how_many_spec (stands_at_spec counts.entry.each.now level) level_rows }
{
    how_many(counts, 1902, 1914, level) + how_many(counts, 1925, 1925, level)
}

fn one_bit_faults(counts: Counts<'_>) -> u32
    ensures { result ≡ how_many_spec (stands_at_spec counts.entry.each.now 1) one_bit_rows }
{
    how_many(counts, 1915, 1921, 1)
        + how_many(counts, 1924, 1924, 1)
        + how_many(counts, 1926, 1927, 1)
}

fn is_emergency(counts: Counts<'_>) -> bool
    ensures { result ≡ is_emergency_spec counts.entry.each.now }
{
    stands_at(counts, 1902, 3)
        | stands_at(counts, 1903, 3)
        | stands_at(counts, 1905, 3)
        | stands_at(counts, 1907, 3)
        | stands_at(counts, 1908, 3)
        | stands_at(counts, 1921, 1)
}

// The fault sum over the raw counts of 1901 to 1927, in that order.
pub fn sum(counts: &[u32]) -> Result<FaultSum, FaultRefusal>
    ensures { result ≡ answer_to counts.now }
{
    if counts.len() != ROW_COUNT {
        return Err(FaultRefusal::NotTwentySeven);
    }
    let counts = Counts { each: counts };
    if !all_fit(counts) {
        return Err(FaultRefusal::TooWide);
    }
    let highest = highest_level(counts);
    let at_1 = levels_at(counts, 1);
    let at_2 = levels_at(counts, 2);
    let at_3 = levels_at(counts, 3);
    let set = one_bit_faults(counts);
    let emergency = is_emergency(counts);
    let agrees = stands_at(counts, TOLD_ROW, highest);
    Ok(FaultSum {
        highest,
        at_1,
        at_2,
        at_3,
        set,
        emergency,
        agrees,
    })
}
