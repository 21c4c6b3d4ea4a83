// The power monitor, its state as one number: with the share of the call's own, or with none.
ghost use Rattle.std.specs.Prelude.{◌≡◌};
ghost use Rattle.punnetcrest.specs.Powering.{seen_in, stepped};

use catalogue::Raw;
use power::{Observation, State};

// Kept: the C interface; only there a state is a number, which may be none.
const NOT_A_POWER_STATE: u32 = 91;

// An observation as a C caller lends it: raw counts, and where each of them stands.
pub const SEEN_WORDS: usize = 8;

const MAIN_NEGATIVE: usize = 0;

const PRECHARGE: usize = 1;

const MAIN_POSITIVE: usize = 2;

const COMMAND: usize = 3;

const EMERGENCY_OFF: usize = 4;

const CURRENT: usize = 5;

const INSIDE: usize = 6;

const OUTSIDE: usize = 7;

fn observation_of(seen: &[u32; SEEN_WORDS], share: Option<u32>) -> Observation
    ensures { result ≡ seen_in seen.now share }
{
    Observation {
        main_negative: Raw(seen[MAIN_NEGATIVE]),
        precharge: Raw(seen[PRECHARGE]),
        main_positive: Raw(seen[MAIN_POSITIVE]),
        command: Raw(seen[COMMAND]),
        emergency_off: Raw(seen[EMERGENCY_OFF]),
        current: Raw(seen[CURRENT]),
        inside: Raw(seen[INSIDE]),
        outside: Raw(seen[OUTSIDE]),
        share,
    }
}

// One observation, and the share that the caller names.
// By these laws an arm that has a number of its own is proved or refused for that number, and not for its form.
#[tactic(auto, using(power::proofs::Answers::kept_or_next, power::proofs::Numbers::number_named))]
#[unsafe(no_mangle)]
pub extern "C" fn pc_power_step_by(state: &mut u32, seen: &[u32; SEEN_WORDS], share: u32) -> u32
    ensures { (result, state.new) ≡ stepped state.old seen.now (Some share) }
{
    let Ok(from) = State::try_from(*state) else {
        return NOT_A_POWER_STATE;
    };
    match power::step(from, observation_of(seen, Some(share))) {
        Ok(next) => {
            *state = u32::from(next);
            0
        }
        Err(why) => u32::from(why),
    }
}

// One observation, and no share given.
#[unsafe(no_mangle)]
pub extern "C" fn pc_power_step(state: &mut u32, seen: &[u32; SEEN_WORDS]) -> u32
    ensures { (result, state.new) ≡ stepped state.old seen.now None }
{
    let share = None;
    pc_power_step_by(state, seen, power::hundredths(share))
}
