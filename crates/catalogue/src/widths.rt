// The bits of a signal, from the constant table's own column, by the signal's place. Who asks for those of many holds the columns.
ghost use Rattle.std.specs.Prelude.{◌≡◌};
ghost use Rattle.catalogue.specs.Find.{bits_of_spec};
ghost use Rattle.catalogue.specs.Places.{TableColumns};

use crate::places::{BOUNDS, HUNDREDS, PLACES, SURPLUSES, place_of};
use std::marker::Model;

// The columns by which a signal's place and bits are found. They are the table's, so that all values are one: a clause sees none of it.
#[derive(Drop)]
pub struct Widths {
    above: [u32; HUNDREDS],
    ends: [u8; HUNDREDS],
    bits: [u8; PLACES],
}

impl Model for Widths {
    ghost use Rattle.catalogue.specs.Places.{TableColumns};

    ghost Value = { Unit };

    ghost view = { λ w. tt };

    ghost invariant = { λ w. TableColumns w.above w.ends w.bits };
}

impl Widths {
    pub fn new() -> Self
        ensures { result ≡ tt }
    {
        Widths {
            above: SURPLUSES,
            ends: BOUNDS,
            bits: rows::widths(),
        }
    }

    // The bits of a signal; 0 where the catalogue has no such signal.
    pub fn bits(&self, number: u32) -> u32
        ensures { result ≡ bits_of_spec number }
    {
        bits_at(number, &self.bits, &self.above, &self.ends)
    }
}

// The bits of a signal, from the table's column and by the columns of its place, which the caller holds; 0 where the catalogue has
// no such signal.
pub fn bits_at(number: u32, widths: &[u8], above: &[u32], ends: &[u8]) -> u32
    requires { TableColumns above.now ends.now widths.now }
    ensures { result ≡ bits_of_spec number }
{
    let Some(place) = place_of(number, above, ends) else {
        return 0;
    };
    u32::from(widths[place])
}

// The bits of one signal: 0 where the catalogue has no such signal. The columns are built for this call alone.
pub fn bits_of(number: u32) -> u32
    ensures { result ≡ bits_of_spec number }
{
    Widths::new().bits(number)
}
