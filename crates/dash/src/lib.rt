// A raw count of a signal as the dash draws it: a reading in double precision, or one of the five other classes by name. For users;
// `catalogue: class_of()` is the call that answers in thousandths. `show` answers every number and count and has no `requires`.
#![tactic(auto)]

ghost use Rattle.std.specs.Prelude.{◌≡◌};
ghost use Rattle.dash.specs.Answer.{dash_of};
ghost use Rattle.dash.specs.Coded.{dash_coded};
ghost use Rattle.doubles.specs.Doubles.{Small};

use catalogue::{NoClass, Raw, Thousandths};
use doubles::in_units;
use messages::class_numbers;

// What the dash draws: one of the six classes.
#[derive(Clone, Copy)]
pub enum Dash {
    // The reading, in the printed unit.
    Value(f64),
    Invalid,
    Absent,
    Error,
    Reserved,
    Outside,
}

// What is drawn for a class, by its code and its thousandths.
fn drawn(code: u8, reading: Thousandths) -> Result<Dash, NoClass>
    requires { Small reading }
    ensures { result ≡ dash_coded code reading }
{
    match code {
        0 => Ok(Dash::Value(in_units(reading))),
        1 => Ok(Dash::Invalid),
        2 => Ok(Dash::Absent),
        3 => Ok(Dash::Error),
        4 => Ok(Dash::Reserved),
        5 => Ok(Dash::Outside),
        6 => Err(NoClass::NotInCatalogue),
        _ => Err(NoClass::TooWide),
    }
}

// What a raw count of the signal with a number shows. It asks where whoever classes a count asks, which costs the other calls nothing.
pub fn show(number: u32, raw: Raw) -> Result<Dash, NoClass>
    ensures { result ≡ dash_of number raw }
{
    let mut code: u8 = 0;
    let reading = class_numbers(number, raw, &mut code);
    drawn(code, Thousandths(reading))
}
