// The sleep watch, its state as two numbers.
ghost use Rattle.std.specs.Prelude.{◌≡◌};
ghost use Rattle.sleep.specs.Watching.{sleep_refusal};
ghost use Rattle.punnetcrest.specs.Sleeping.{started, watched};

use sleep::{ClockWentBack, Watch};

// Kept: the C interface; only there a watch is two numbers, which may be none.
const NOT_A_SLEEP_STATE: u32 = 92;

// Document 01's number of the watch's answer.
fn number_of(answer: Result<(), ClockWentBack>) -> u32
    ensures { result ≡ sleep_refusal answer }
{
    match answer {
        Ok(()) => 0,
        Err(why) => u32::from(why),
    }
}

// Starts a watch: awake at this time. Nothing is refused.
#[unsafe(no_mangle)]
pub extern "C" fn pc_sleep_start(last_wake: &mut u32, asleep: &mut u32, time: u32) -> u32
    ensures { (result, (last_wake.new, asleep.new)) ≡ started time }
{
    *last_wake = time;
    *asleep = 0;
    0
}

// One call of the watch; wake is on where it is not 0.
// Kept: two returns, one for each value of the flag; one store for both misses a bar of speed that they meet (docs/DECISIONS.md).
#[unsafe(no_mangle)]
pub extern "C" fn pc_sleep_watch(last_wake: &mut u32, asleep: &mut u32, time: u32, wake: u32) -> u32
    ensures { (result, (last_wake.new, asleep.new)) ≡ watched last_wake.old asleep.old time wake }
{
    if *asleep > 1 {
        return NOT_A_SLEEP_STATE;
    }
    let held = Watch {
        last_wake: *last_wake,
        asleep: *asleep == 1,
    };
    let next = held.updated(time, wake != 0);
    let after = next.watch;
    *last_wake = after.last_wake;
    if after.asleep {
        *asleep = 1;
        return number_of(next.answer);
    }
    *asleep = 0;
    number_of(next.answer)
}
