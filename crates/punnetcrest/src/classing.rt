// The class and the reading of one raw count.
ghost use Rattle.std.specs.Prelude.{◌≡◌};
ghost use Rattle.punnetcrest.specs.Classing.{classed};

// Kept: the C interface has codes of classes, and `messages::class_numbers` answers these two where there is no class.
// The codes past those of the six classes.
const NOT_IN_CATALOGUE: u8 = 6;

const TOO_WIDE: u8 = 7;

// Writes the class of a raw count, and its reading.
#[unsafe(no_mangle)]
pub extern "C" fn pc_class(
    number: u32,
    raw: u32,
    class_code: &mut u32,
    thousandths: &mut i64,
) -> u32
    ensures { (result, (class_code.new, thousandths.new)) ≡ classed number raw class_code.old thousandths.old }
{
    let mut code: u8 = 0;
    let reading = messages::class_numbers(number, catalogue::Raw(raw), &mut code);
    if code == NOT_IN_CATALOGUE {
        return 3;
    }
    if code == TOO_WIDE {
        return 26;
    }
    *thousandths = reading;
    *class_code = code as u32;
    0
}
