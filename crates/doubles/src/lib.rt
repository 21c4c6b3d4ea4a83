// A reading as a double, in the printed unit itself: for `dash`, which answers it, and for `signal_lines`, which prints its bits. Both
// functions ask that the thousandths are no more than a double holds exactly, as those of every value of the catalogue are.
#![tactic(auto)]

ghost use Rattle.std.specs.Prelude.{◌≡◌};
ghost use Rattle.std.specs.Float.{binary64};
ghost use Rattle.std.specs.Float.Ieee.{to_bits};
ghost use Rattle.doubles.specs.Doubles.{in_units_spec, Small};

use catalogue::Thousandths;

// The thousandths as a double, which loses nothing, divided once by 1000.
pub fn in_units(reading: Thousandths) -> f64
    requires { Small reading }
    ensures { result ≡ in_units_spec reading }
{
    reading.0 as f64 / 1000.0
}

// The bits of that double, as one number.
pub fn bits_in_units(reading: Thousandths) -> u64
    requires { Small reading }
    ensures { result ≡ to_bits binary64 (in_units_spec reading) }
{
    in_units(reading).to_bits()
}
