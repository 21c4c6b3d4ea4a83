// The charging monitor, its state as one number.
ghost use Rattle.std.specs.Prelude.{◌≡◌};
ghost use Rattle.tester.specs.Following.{charge_seen_in, charge_followed};

use catalogue::Raw;
use charging::{ChargeObservation, ChargeState};

// Kept: the C interface; only there a state is a number, which may be none.
const NOT_A_CHARGE_STATE: u32 = 93;

// An observation as a C caller lends it: raw counts, and where each of them stands.
pub const CHARGE_WORDS: usize = 11;

const PLUG: usize = 0;

const SELF_CHECK: usize = 1;

const MAIN_POSITIVE_WELDED: usize = 2;

const MAIN_NEGATIVE_WELDED: usize = 3;

const HEATING_POSITIVE_WELDED: usize = 4;

const HEATING_NEGATIVE_WELDED: usize = 5;

const MAIN_POSITIVE: usize = 6;

const MAIN_NEGATIVE: usize = 7;

const ALLOWED: usize = 8;

const CHARGE_POSITIVE: usize = 9;

const CHARGE_NEGATIVE: usize = 10;

fn observation_of(seen: &[u32; CHARGE_WORDS]) -> ChargeObservation
    ensures { result ≡ charge_seen_in seen.now }
{
    ChargeObservation {
        plug: Raw(seen[PLUG]),
        self_check: Raw(seen[SELF_CHECK]),
        main_positive_welded: Raw(seen[MAIN_POSITIVE_WELDED]),
        main_negative_welded: Raw(seen[MAIN_NEGATIVE_WELDED]),
        heating_positive_welded: Raw(seen[HEATING_POSITIVE_WELDED]),
        heating_negative_welded: Raw(seen[HEATING_NEGATIVE_WELDED]),
        main_positive: Raw(seen[MAIN_POSITIVE]),
        main_negative: Raw(seen[MAIN_NEGATIVE]),
        allowed: Raw(seen[ALLOWED]),
        charge_positive: Raw(seen[CHARGE_POSITIVE]),
        charge_negative: Raw(seen[CHARGE_NEGATIVE]),
    }
}

// One observation.
#[unsafe(no_mangle)]
pub extern "C" fn pct_charge_step(state: &mut u32, seen: &[u32; CHARGE_WORDS]) -> u32
    ensures { (result, state.new) ≡ charge_followed state.old seen.now }
{
    let Ok(from) = ChargeState::try_from(*state) else {
        return NOT_A_CHARGE_STATE;
    };
    match charging::step(from, observation_of(seen)) {
        Ok(next) => {
            *state = u32::from(next);
            0
        }
        Err(why) => u32::from(why),
    }
}
