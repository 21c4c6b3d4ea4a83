// The place of a signal and the last start that its bits leave it, from the constant table's own column. Who asks for those of many
// holds the columns.
ghost use Rattle.std.specs.Prelude.{◌≡◌, ◌<◌, get_or};
ghost use Rattle.rows.specs.Rows.{rows};
ghost use Rattle.rows.specs.Widths.{last_starts_of};
ghost use Rattle.catalogue.specs.Places.{no_place_spec, Placed};

use crate::places::{BOUNDS, HUNDREDS, PLACES, SURPLUSES, place_of};
use std::marker::Model;

// The columns by which a signal's place and last start are found. They are the table's, so that all values are one: a clause sees none
// of it.
#[derive(Drop)]
pub struct SignalStarts {
    above: [u32; HUNDREDS],
    ends: [u8; HUNDREDS],
    lasts: [u8; PLACES],
}

impl Model for SignalStarts {
    ghost use Rattle.catalogue.specs.Places.{StartColumns};

    ghost Value = { Unit };

    ghost view = { λ s. tt };

    ghost invariant = { λ s. StartColumns s.above s.ends s.lasts };
}

impl SignalStarts {
    pub fn new() -> Self
        ensures { result ≡ tt }
    {
        SignalStarts {
            above: SURPLUSES,
            ends: BOUNDS,
            lasts: rows::last_starts(),
        }
    }

    // The place of a signal in the table.
    pub fn place_of(&self, number: u32) -> Option<usize>
        ensures { Placed number result }
    {
        place_of(number, &self.above, &self.ends)
    }

    // The last start at a place.
    pub fn at(&self, place: usize) -> u32
        requires { place < no_place_spec }
        ensures { result ≡ get_or (last_starts_of rows) place 0 }
    {
        u32::from(self.lasts[place])
    }
}
