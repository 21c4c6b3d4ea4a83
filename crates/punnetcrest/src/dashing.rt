// A raw count as the dash draws it.
ghost use Rattle.std.specs.Prelude.{◌≡◌};
ghost use Rattle.dash.specs.Answer.{shown_class, shown_reading};
ghost use Rattle.punnetcrest.specs.Dashing.{name_code, dashed};

use catalogue::Raw;
use dash::Dash;

// Kept: the C interface, which has the codes of the classes.
// The code of the class, as pc_class gives it.
fn code_of(shown: Dash) -> u32
    ensures { result ≡ name_code (shown_class shown) }
{
    match shown {
        Dash::Value(_) => 0,
        Dash::Invalid => 1,
        Dash::Absent => 2,
        Dash::Error => 3,
        Dash::Reserved => 4,
        Dash::Outside => 5,
    }
}

// The reading of a value; 0 where the class is no value.
fn reading_of(shown: Dash) -> f64
    ensures { result ≡ shown_reading shown }
{
    match shown {
        Dash::Value(reading) => reading,
        Dash::Invalid => 0.0,
        Dash::Absent => 0.0,
        Dash::Error => 0.0,
        Dash::Reserved => 0.0,
        Dash::Outside => 0.0,
    }
}

// Writes the class of a raw count, and its reading as a double.
#[unsafe(no_mangle)]
pub extern "C" fn pc_dash(number: u32, raw: u32, class_code: &mut u32, reading: &mut f64) -> u32
    ensures { (result, (class_code.new, reading.new)) ≡ dashed number raw class_code.old reading.old }
{
    let answer = dash::show(number, Raw(raw));
    match answer {
        Ok(shown) => {
            *class_code = code_of(shown);
            *reading = reading_of(shown);
            0
        }
        Err(why) => u32::from(why),
    }
}
