// The power monitor: one step for each observation of a pack's relays, commands, current and voltages, with the share that
// precharge has to reach.
//
// For a gateway that keeps a `State`, at first `State::start()`, and calls `step` with each observation. No public function
// has a `requires`: an observation with a relay that is neither open nor closed, with another count over its highest, or with
// a share outside 50 to 100, is refused, and the state is kept. `specs/Rules.antt` has document 01's rules 1 to 5.
#![tactic(auto)]

mod observed;
mod rules;
mod shares;
mod tested;

ghost use Rattle.std.specs.Prelude.{◌≡◌, Err};
ghost use Rattle.power.specs.States.{state_number, state_or_not};
ghost use Rattle.power.specs.Rules.{starts_as};
ghost use Rattle.power.specs.Refusals.{power_refusal, open_or_closed, relays_fit_spec, commands_fit_spec, readings_fit_spec, step_of, state_if_taken};

use catalogue::Raw;
pub use observed::precharge_complete;
use rules::next_state;
pub use shares::hundredths;
use shares::share_fits;
use tested::Tested;

#[derive(Clone, Copy, Debug, PartialEq, Eq)]
pub enum State {
    Off,
    Rising,
    Precharge,
    Both,
    On,
    Falling,
    Fault,
}

// A number that stands for no state.
#[derive(Clone, Copy, Debug, PartialEq, Eq)]
pub struct NotAState(pub u32);

// Raw counts, as read from frames, and the share that comes with them.
#[derive(Clone, Copy)]
pub struct Observation {
    // Relays: 1 open, 2 closed.
    pub main_negative: Raw,
    pub precharge: Raw,
    pub main_positive: Raw,
    // 1601.
    pub command: Raw,
    // 1604.
    pub emergency_off: Raw,
    // 203.
    pub current: Raw,
    // 201 and 202: the voltages on either side of the main positive relay.
    pub inside: Raw,
    pub outside: Raw,
    // The share of the voltage inside, in hundredths, that the one outside has to reach before precharge is complete: the one that
    // the caller names, or that none is given, which is a case of its own and no number.
    pub share: Option<u32>,
}

#[derive(Clone, Copy, Debug, PartialEq, Eq)]
pub enum PowerRefusal {
    // A relay count is neither 1 nor 2.
    NeitherOpenNorClosed,
    // The command or 1604 is over 3.
    CommandTooHigh,
    // The current or a voltage is over 65,535.
    ReadingTooHigh,
    // The share is under 50 or over 100.
    ShareOutOfRange,
}

// A relay count: open, closed.
const OPEN: u32 = 1;

const CLOSED: u32 = 2;

// The highest command and count of 1604.
const HIGHEST_COMMAND: u32 = 3;

// The highest current and voltage: all 16 bits set.
const HIGHEST_READING: u32 = 65535;

impl State {
    // The state that a monitor starts in.
    pub fn start() -> State
        ensures { result ≡ starts_as }
    {
        State::Off
    }
}

// 0 off, 1 rising, 2 precharge, 3 both, 4 on, 5 falling, 6 fault.
impl From<State> for u32 {
    ghost from_gives = { λ state number. number ≡ state_number state };

    fn from(state: State) -> u32 {
        match state {
            State::Off => 0,
            State::Rising => 1,
            State::Precharge => 2,
            State::Both => 3,
            State::On => 4,
            State::Falling => 5,
            State::Fault => 6,
        }
    }
}

// The state of a number, where there is one.
impl TryFrom<u32> for State {
    type Error = NotAState;

    ghost try_from_gives = { λ n state. state ≡ state_or_not n };

    fn try_from(n: u32) -> Result<State, NotAState> {
        match n {
            0 => Ok(State::Off),
            1 => Ok(State::Rising),
            2 => Ok(State::Precharge),
            3 => Ok(State::Both),
            4 => Ok(State::On),
            5 => Ok(State::Falling),
            6 => Ok(State::Fault),
            _ => Err(NotAState(n)),
        }
    }
}

// The documents' number of each refusal.
impl From<PowerRefusal> for u32 {
    ghost from_gives = { λ why number. number ≡ power_refusal (Err why) };

    fn from(why: PowerRefusal) -> u32 {
        match why {
            PowerRefusal::NeitherOpenNorClosed => 41,
            PowerRefusal::CommandTooHigh => 42,
            PowerRefusal::ReadingTooHigh => 43,
            PowerRefusal::ShareOutOfRange => 44,
        }
    }
}

fn is_open_or_closed(relay: Raw) -> bool
    ensures { result ≡ open_or_closed relay }
{
    (relay.0 == OPEN) | (relay.0 == CLOSED)
}

fn relays_fit(seen: Observation) -> bool
    ensures { result ≡ relays_fit_spec seen }
{
    let negative = is_open_or_closed(seen.main_negative);
    let precharge = is_open_or_closed(seen.precharge);
    let positive = is_open_or_closed(seen.main_positive);
    negative & precharge & positive
}

fn commands_fit(seen: Observation) -> bool
    ensures { result ≡ commands_fit_spec seen }
{
    (seen.command.0 <= HIGHEST_COMMAND) & (seen.emergency_off.0 <= HIGHEST_COMMAND)
}

fn readings_fit(seen: Observation) -> bool
    ensures { result ≡ readings_fit_spec seen }
{
    (seen.current.0 <= HIGHEST_READING)
        & (seen.inside.0 <= HIGHEST_READING)
        & (seen.outside.0 <= HIGHEST_READING)
}

// One step: the state that follows, or a refusal, and the caller keeps its state.
pub fn step(state: State, seen: Observation) -> Result<State, PowerRefusal>
    ensures { result ≡ state_if_taken (step_of state seen) }
{
    let relays = relays_fit(seen);
    let commands = commands_fit(seen);
    let readings = readings_fit(seen);
    let share = seen.share;
    let fitting = share_fits(share);
    if !relays {
        return Err(PowerRefusal::NeitherOpenNorClosed);
    }
    if !commands {
        return Err(PowerRefusal::CommandTooHigh);
    }
    if !readings {
        return Err(PowerRefusal::ReadingTooHigh);
    }
    if !fitting {
        return Err(PowerRefusal::ShareOutOfRange);
    }
    Ok(next_state(state, Tested { seen }))
}
