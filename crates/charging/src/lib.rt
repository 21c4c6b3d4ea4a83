// The charging monitor of the workshop tester: one step for each observation of a truck that is put to charge, from the plug to
// ready.
//
// For a tester that keeps a `ChargeState`, at first `ChargeState::start()`, and calls `step` with each observation. No public
// function has a `requires`: an observation with a count too wide for its signal is refused, and the state is kept.
// `specs/Rules.antt` has the rule, over the six conditions of `specs/Conditions.antt`. The tester stands above the library: of it
// this crate calls one entry point, `catalogue::class_of`.
#![tactic(auto)]

mod conditions;
mod widths;

ghost use Rattle.std.specs.Prelude.{◌≡◌, Err, min};
ghost use Rattle.charging.specs.States.{charge_start, charge_number, charge_state_or_not, step_with_spec};
ghost use Rattle.charging.specs.Rules.{next_charge_spec};
ghost use Rattle.charging.specs.Refusals.{charge_refusal, charge_step_of, charge_if_taken};

use catalogue::Raw;
use conditions::{holding, is_unplugged, none_welded};
use widths::all_fit;

// How far a charge has come: at the start, then a state for each condition that is met with all before it.
#[derive(Clone, Copy, Debug, PartialEq, Eq)]
pub enum ChargeState {
    Start,
    PlugSeen,
    SelfChecked,
    NoWeld,
    MainClosed,
    ChargingAllowed,
    ReadyToCharge,
    Fault,
}

// A number that stands for no state.
#[derive(Clone, Copy, Debug, PartialEq, Eq)]
pub struct NotAChargeState(pub u32);

// Raw counts, as read from frames.
#[derive(Clone, Copy)]
pub struct ChargeObservation {
    // 1708.
    pub plug: Raw,
    // 1605.
    pub self_check: Raw,
    // Welded relays: 311, 313, 325, 327.
    pub main_positive_welded: Raw,
    pub main_negative_welded: Raw,
    pub heating_positive_welded: Raw,
    pub heating_negative_welded: Raw,
    // Relays, 1 open, 2 closed: 301, 302.
    pub main_positive: Raw,
    pub main_negative: Raw,
    // 1709.
    pub allowed: Raw,
    // Relays: 304, 306.
    pub charge_positive: Raw,
    pub charge_negative: Raw,
}

// A count has more bits than its signal.
#[derive(Clone, Copy, Debug, PartialEq, Eq)]
pub struct CountTooWide;

// Document 02's number of the refusal.
impl From<CountTooWide> for u32 {
    ghost from_gives = { λ why number. number ≡ charge_refusal (Err why) };

    fn from(_why: CountTooWide) -> u32 {
        81
    }
}

// The number of fault; the others' numbers are how many conditions they have met.
const FAULT_NUMBER: u32 = 7;

impl ChargeState {
    // The state that a monitor starts in.
    pub fn start() -> ChargeState
        ensures { result ≡ charge_start }
    {
        ChargeState::Start
    }
}

// 0 start, 1 plug seen, 2 self-checked, 3 no weld, 4 main closed, 5 allowed, 6 ready: how many conditions are met; 7 fault.
impl From<ChargeState> for u32 {
    ghost from_gives = { λ state number. number ≡ charge_number state };

    fn from(state: ChargeState) -> u32 {
        match state {
            ChargeState::Start => 0,
            ChargeState::PlugSeen => 1,
            ChargeState::SelfChecked => 2,
            ChargeState::NoWeld => 3,
            ChargeState::MainClosed => 4,
            ChargeState::ChargingAllowed => 5,
            ChargeState::ReadyToCharge => 6,
            ChargeState::Fault => 7,
        }
    }
}

// The state of a number, where there is one.
impl TryFrom<u32> for ChargeState {
    type Error = NotAChargeState;

    ghost try_from_gives = { λ n state. state ≡ charge_state_or_not n };

    fn try_from(n: u32) -> Result<ChargeState, NotAChargeState> {
        if n > FAULT_NUMBER {
            return Err(NotAChargeState(n));
        }
        Ok(step_with(n))
    }
}

// The step with so many conditions met; past the last one, fault.
fn step_with(n: u32) -> ChargeState
    ensures { result ≡ step_with_spec n }
{
    match n {
        0 => ChargeState::Start,
        1 => ChargeState::PlugSeen,
        2 => ChargeState::SelfChecked,
        3 => ChargeState::NoWeld,
        4 => ChargeState::MainClosed,
        5 => ChargeState::ChargingAllowed,
        6 => ChargeState::ReadyToCharge,
        _ => ChargeState::Fault,
    }
}

// A function of its own, though it is `min`: a body that gives another number is refused by its contract, and not for its form.
fn lesser(a: u32, b: u32) -> u32
    ensures { result ≡ min a b }
{
    a.min(b)
}

// The state that follows an observation whose counts fit. Of a step, the lesser of one more condition and as many as hold from the
// first on is what the rule says (`Moving lesser_of`): one on where all of them hold, back before the first that is lost.
fn next_charge(state: ChargeState, seen: ChargeObservation) -> ChargeState
    ensures { result ≡ next_charge_spec state seen }
{
    if !none_welded(seen) {
        return ChargeState::Fault;
    }
    let before = u32::from(state);
    if before < FAULT_NUMBER {
        return step_with(lesser(before + 1, holding(seen)));
    }
    if is_unplugged(seen) {
        return ChargeState::Start;
    }
    state
}

// One step: the state that follows, or a refusal, and the caller keeps its state.
pub fn step(state: ChargeState, seen: ChargeObservation) -> Result<ChargeState, CountTooWide>
    ensures { result ≡ charge_if_taken (charge_step_of state seen) }
{
    if !all_fit(seen) {
        return Err(CountTooWide);
    }
    Ok(next_charge(state, seen))
}
