// The count of a signal, cut from the window of bits that begins with it, and its class, by the constants of its shape: an arm for
// each, which tools/shapes_code.py writes.
ghost use Rattle.std.specs.Prelude.{◌≡◌};
ghost use Rattle.catalogue.specs.Shapes.{row_shaped};
ghost use Rattle.catalogue.specs.Class.{class_of_spec};
ghost use Rattle.catalogue.specs.Cut.{cut_for, cut_of_spec};

use crate::classes::{no_mark, one_mark, three_marks, two_marks};
use crate::shapes::shape_of;
use crate::{Class, Cut, NoClass, Raw};
use rows::MarkKind::{Absent, Error, Invalid, Reserved};

// Count and class by the signal's shape. Each arm is a shape of specs/Shapes.antt.
fn cut_shaped(shape: usize, window: u32) -> Cut
    ensures { result ≡ cut_for (row_shaped shape) window }
{
    match shape {
        0 => one_mark(16, 100, 0, 0, 65535, Invalid, 65535, 65535, window),
        1 => one_mark(16, 100, -2000000, 0, 65535, Invalid, 65535, 65535, window),
        2 => one_mark(8, 400, 0, 0, 250, Invalid, 255, 255, window),
        3 => no_mark(2, 1000, 0, 0, 3, window),
        4 => one_mark(16, 1000, 0, 0, 60000, Invalid, 65535, 65535, window),
        5 => two_marks(2, 1000, 0, 0, 3, Reserved, 0, 0, Invalid, 3, 3, window),
        6 => no_mark(1, 1000, 0, 0, 1, window),
        7 => no_mark(32, 1000, 0, 0, 4294967295, window),
        8 => no_mark(16, 100, 0, 0, 65535, window),
        9 => one_mark(2, 1000, 0, 0, 3, Reserved, 0, 0, window),
        10 => one_mark(2, 1000, 0, 0, 3, Reserved, 2, 3, window),
        11 => no_mark(4, 1000, 0, 0, 15, window),
        12 => two_marks(
            8, 1000, -40000, 0, 250, Absent, 253, 253, Invalid, 255, 255, window,
        ),
        13 => one_mark(16, 1000, 0, 0, 65535, Invalid, 65535, 65535, window),
        14 => no_mark(8, 1000, 0, 1, 255, window),
        15 => one_mark(16, 1, 0, 0, 65535, Invalid, 65535, 65535, window),
        17 => no_mark(8, 100, 0, 0, 50, window),
        18 => no_mark(16, 1, 0, 0, 65535, window),
        19 => one_mark(8, 1000, -40000, 0, 250, Invalid, 255, 255, window),
        20 => no_mark(16, 1000, 0, 1, 65535, window),
        21 => two_marks(
            4, 1000, 0, 0, 15, Reserved, 10, 13, Reserved, 15, 15, window,
        ),
        22 => no_mark(8, 1000, 0, 0, 255, window),
        23 => one_mark(8, 1000, 0, 0, 254, Invalid, 255, 255, window),
        24 => no_mark(8, 1000, 1985000, 0, 250, window),
        25 => no_mark(8, 250, 0, 0, 48, window),
        26 => no_mark(8, 250, 0, 0, 124, window),
        27 => two_marks(2, 1000, 0, 0, 3, Reserved, 2, 2, Invalid, 3, 3, window),
        28 => one_mark(3, 1000, 0, 0, 7, Invalid, 2, 7, window),
        29 => one_mark(3, 1000, 0, 0, 7, Reserved, 4, 7, window),
        30 => three_marks(
            8, 1000, -40000, 0, 250, Absent, 253, 253, Error, 254, 254, Invalid, 255, 255, window,
        ),
        31 => one_mark(2, 1000, 0, 0, 3, Invalid, 2, 3, window),
        32 => one_mark(16, 1000, 0, 0, 1000, Invalid, 65535, 65535, window),
        33 => two_marks(2, 1000, 0, 0, 3, Error, 2, 2, Invalid, 3, 3, window),
        34 => no_mark(16, 100, 0, 0, 10000, window),
        35 => no_mark(6, 1000, 0, 0, 63, window),
        36 => no_mark(5, 1000, 0, 0, 31, window),
        _ => Cut {
            bits: 0,
            raw: Raw(window),
            class: Err(NoClass::NotInCatalogue),
        },
    }
}

// Of the window of bits that begins with a signal: how many are its own, its count, and the class of that.
pub fn cut_of(number: u32, window: u32) -> Cut
    ensures { result ≡ cut_of_spec number window }
{
    cut_shaped(shape_of(number), window)
}

// The class of a raw count of the signal with a number. A number that is more than the count cut from it is too wide.
pub fn class_of(number: u32, raw: Raw) -> Result<Class, NoClass>
    ensures { result ≡ class_of_spec number raw }
{
    let cut = cut_of(number, raw.0);
    let count = cut.raw;
    if count.0 != raw.0 {
        return Err(NoClass::TooWide);
    }
    cut.class
}
