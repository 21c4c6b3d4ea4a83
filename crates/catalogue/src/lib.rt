// The signal catalogue of the 199 signals of QC/T 1201.5-2023: by a signal's number, how many bits it has and what a raw
// count of it stands for. A number that no signal has is answered too. The bits come from the constant table's column, by the signal's
// place in it: who asks for those of many signals, as the reader of a text does, builds the columns once and lends them. The class goes by
// the signal's shape, and so do its bits and its count where the window of bits that begins with it is at hand, as in a frame. Of the
// public functions only `SignalStarts::at`, which is told a place, has a `requires`.
#![tactic(auto)]

ghost use Rattle.std.specs.Prelude.{◌≡◌};
ghost use Rattle.catalogue.specs.Class.{no_class_number};

mod by_shape;
mod classes;
mod places;
mod shapes;
mod starts;
mod widths;

pub use by_shape::{class_of, cut_of};
pub use places::{CHECKSUM_PLACE, COUNTER_PLACE, HUNDREDS, PLACES, bounds, place_of, surpluses};
pub use starts::SignalStarts;
pub use widths::{Widths, bits_at, bits_of};

// A raw count, as a frame carries it.
#[derive(Clone, Copy, Debug, PartialEq, Eq)]
pub struct Raw(pub u32);

// What the window of bits that begins with a signal has of it: how many bits are its own, its count, and the class of that.
#[derive(Clone, Copy, Debug, PartialEq, Eq)]
pub struct Cut {
    pub bits: u32,
    pub raw: Raw,
    pub class: Result<Class, NoClass>,
}

// A reading in thousandths of the printed unit.
#[derive(Clone, Copy, Debug, PartialEq, Eq)]
pub struct Thousandths(pub i64);

// What a raw count of a signal stands for: one of six classes.
#[derive(Clone, Copy, Debug, PartialEq, Eq)]
pub enum Class {
    // Within the raw limits and no mark: the reading.
    Value(Thousandths),
    Invalid(Raw),
    // Not detected, or no port.
    Absent(Raw),
    Error(Raw),
    Reserved(Raw),
    // No mark, and beyond the raw limits.
    Outside(Raw),
}

// Why a number and a raw count have no class.
#[derive(Clone, Copy, Debug, PartialEq, Eq)]
pub enum NoClass {
    NotInCatalogue,
    // More bits than the signal has.
    TooWide,
}

// The number of the refusal.
impl From<NoClass> for u32 {
    ghost from_gives = { λ why number. number ≡ no_class_number why };

    fn from(why: NoClass) -> u32 {
        match why {
            NoClass::NotInCatalogue => 3,
            NoClass::TooWide => 26,
        }
    }
}
