// A signal's count in a row, cut from the window of bits that begins with it, and its class: a mark wins over the range; then it is a
// value if it lies within the raw limits; else it is outside. For `by_shape`, which has the constants of each shape.
ghost use Rattle.std.specs.Prelude.{◌≡◌, ◌*◌, ◌%◌, ◌^◌, ◌≤◌, pos, ◌+ℤ◌};
ghost use Rattle.std.proofs.Math.Option.{some};
ghost use Rattle.rows.specs.Rows.{row, mark, unmarked};
ghost use Rattle.rows.specs.Rule.{most_bits, IsKind, Kinded};
ghost use Rattle.catalogue.specs.Class.{between, mark_class, class_in_spec};
ghost use Rattle.catalogue.specs.Cut.{cut_for};

use crate::{Class, Cut, Raw, Thousandths};
use rows::MarkKind::Unmarked;
use rows::{Mark, MarkKind};

fn is_between(first: u32, last: u32, count: u32) -> bool
    ensures { result ≡ between first last count }
{
    first <= count && count <= last
}

// The lowest `bits` bits of a window.
fn low_bits(window: u32, bits: u32) -> u32
    requires { bits ≤ most_bits }
    ensures { result ≡ window % 2 ^ bits }
{
    (u64::from(window) % (1 << bits)) as u32
}

// The class that a mark gives, by its kind. What is unmarked has no count, so its arm is never taken; with `unreachable!()` there a class
// costs about three instructions more.
fn marked(kind: MarkKind, raw: Raw) -> Class
    requires { IsKind kind }
    ensures { some result ≡ mark_class kind raw }
{
    match kind {
        MarkKind::Invalid => Class::Invalid(raw),
        MarkKind::Absent => Class::Absent(raw),
        MarkKind::Error => Class::Error(raw),
        MarkKind::Reserved => Class::Reserved(raw),
        MarkKind::Unmarked => Class::Outside(raw),
    }
}

// The reading of a raw count. Nothing here wraps: a count has 32 bits, a resolution 16 and an offset 32.
fn reading(raw: Raw, resolution: u16, offset: i32) -> Thousandths
    ensures { result.0 ≡ pos (raw.0 * resolution) +ℤ offset }
{
    Thousandths(i64::from(raw.0) * i64::from(resolution) + i64::from(offset))
}

// The class of a count in a row with these numbers and marks.
fn class_in(
    resolution: u16,
    offset: i32,
    lowest: u32,
    highest: u32,
    mark1: Mark,
    mark2: Mark,
    mark3: Mark,
    raw: Raw,
) -> Class
    requires { Kinded mark1 × Kinded mark2 × Kinded mark3 }
    ensures { result ≡ class_in_spec (row 0 0 resolution offset lowest highest mark1 mark2 mark3) raw }
{
    let count = raw.0;
    if is_between(mark1.first, mark1.last, count) {
        return marked(mark1.kind, raw);
    }
    if is_between(mark2.first, mark2.last, count) {
        return marked(mark2.kind, raw);
    }
    if is_between(mark3.first, mark3.last, count) {
        return marked(mark3.kind, raw);
    }
    if is_between(lowest, highest, count) {
        return Class::Value(reading(raw, resolution, offset));
    }
    Class::Outside(raw)
}

// The count of so many bits that a window begins with, and its class, in a row with these numbers and three marks; below, with two,
// one and none.
// Kept: one function for any marks is no plainer, since each mark of an arm would be a call or a struct of its own.
pub fn three_marks(
    bits: u32,
    resolution: u16,
    offset: i32,
    lowest: u32,
    highest: u32,
    kind1: MarkKind,
    first1: u32,
    last1: u32,
    kind2: MarkKind,
    first2: u32,
    last2: u32,
    kind3: MarkKind,
    first3: u32,
    last3: u32,
    window: u32,
) -> Cut
    requires { (bits ≤ most_bits) × Kinded (mark kind1 first1 last1) × Kinded (mark kind2 first2 last2) × Kinded (mark kind3 first3 last3) }
    ensures { result ≡ cut_for (some (row 0 bits resolution offset lowest highest (mark kind1 first1 last1) (mark kind2 first2 last2) (mark kind3 first3 last3))) window }
{
    let raw = Raw(low_bits(window, bits));
    let mark1 = Mark {
        kind: kind1,
        first: first1,
        last: last1,
    };
    let mark2 = Mark {
        kind: kind2,
        first: first2,
        last: last2,
    };
    let mark3 = Mark {
        kind: kind3,
        first: first3,
        last: last3,
    };
    let class = class_in(
        resolution, offset, lowest, highest, mark1, mark2, mark3, raw,
    );
    Cut {
        bits,
        raw,
        class: Ok(class),
    }
}

pub fn two_marks(
    bits: u32,
    resolution: u16,
    offset: i32,
    lowest: u32,
    highest: u32,
    kind1: MarkKind,
    first1: u32,
    last1: u32,
    kind2: MarkKind,
    first2: u32,
    last2: u32,
    window: u32,
) -> Cut
    requires { (bits ≤ most_bits) × Kinded (mark kind1 first1 last1) × Kinded (mark kind2 first2 last2) }
    ensures { result ≡ cut_for (some (row 0 bits resolution offset lowest highest (mark kind1 first1 last1) (mark kind2 first2 last2) unmarked)) window }
{
    three_marks(
        bits, resolution, offset, lowest, highest, kind1, first1, last1, kind2, first2, last2,
        Unmarked, 1, 0, window,
    )
}

pub fn one_mark(
    bits: u32,
    resolution: u16,
    offset: i32,
    lowest: u32,
    highest: u32,
    kind: MarkKind,
    first: u32,
    last: u32,
    window: u32,
) -> Cut
    requires { (bits ≤ most_bits) × Kinded (mark kind first last) }
    ensures { result ≡ cut_for (some (row 0 bits resolution offset lowest highest (mark kind first last) unmarked unmarked)) window }
{
    two_marks(
        bits, resolution, offset, lowest, highest, kind, first, last, Unmarked, 1, 0, window,
    )
}

pub fn no_mark(
    bits: u32,
    resolution: u16,
    offset: i32,
    lowest: u32,
    highest: u32,
    window: u32,
) -> Cut
    requires { bits ≤ most_bits }
    ensures { result ≡ cut_for (some (row 0 bits resolution offset lowest highest unmarked unmarked unmarked)) window }
{
    one_mark(
        bits, resolution, offset, lowest, highest, Unmarked, 1, 0, window,
    )
}
