// Document 01's rules 1 to 5: the state that follows an observation whose relays are each open or closed.
ghost use Rattle.std.specs.Prelude.{◌≡◌, cond, ◌&&◌};
ghost use Rattle.power.specs.Observed.{all_open_spec, urgent};
ghost use Rattle.power.specs.Pictures.{picture};
ghost use Rattle.power.specs.Rules.{steps, first_step_spec, from_fault_spec, next_state_spec};
ghost use Rattle.power.specs.declared.State.TheVariants.{Off, Rising, Precharge, On, Fault};

use crate::State;
use crate::observed::{all_open, is_under_10_amps, is_urgent, precharge_complete, shows_picture};
use crate::tested::Tested;

// Rules 3 to 5, from each state but fault.

fn from_off(tested: Tested) -> State
    ensures { result ≡ first_step_spec steps Off tested.seen }
{
    if shows_picture(State::Rising, tested) & (tested.seen.command.0 == 1) {
        return State::Rising;
    }
    State::Fault
}

fn from_rising(tested: Tested) -> State
    ensures { result ≡ first_step_spec steps Rising tested.seen }
{
    if shows_picture(State::Precharge, tested) & (tested.seen.command.0 == 1) {
        return State::Precharge;
    }
    if shows_picture(State::Off, tested) & (tested.seen.command.0 == 2) {
        return State::Off;
    }
    State::Fault
}

fn from_precharge(tested: Tested) -> State
    ensures { result ≡ first_step_spec steps Precharge tested.seen }
{
    let share = tested.seen.share;
    let complete = precharge_complete(tested.seen.inside, tested.seen.outside, share);
    if shows_picture(State::Both, tested) & ((tested.seen.command.0 == 1) & complete) {
        return State::Both;
    }
    let down = (tested.seen.command.0 == 2) | is_urgent(tested.seen);
    if shows_picture(State::Falling, tested) & down {
        return State::Falling;
    }
    State::Fault
}

fn from_on(tested: Tested) -> State
    ensures { result ≡ first_step_spec steps On tested.seen }
{
    let calm = is_under_10_amps(tested.seen.current);
    let down = is_urgent(tested.seen) | ((tested.seen.command.0 == 2) & calm);
    if shows_picture(State::Falling, tested) & down {
        return State::Falling;
    }
    State::Fault
}

// From both and from falling: the only step is one without a condition.
fn only_to(next: State, tested: Tested) -> State
    ensures { result ≡ cond (picture next tested.seen) next Fault }
{
    if shows_picture(next, tested) {
        return next;
    }
    State::Fault
}

fn from_fault(tested: Tested) -> State
    ensures { result ≡ from_fault_spec tested.seen }
{
    let left = (tested.seen.command.0 == 0) | (tested.seen.command.0 == 2);
    if all_open(tested) & left {
        return State::Off;
    }
    State::Fault
}

// Rules 1 and 2, and else where rules 3 to 5 lead.
fn by_rules(state: State, tested: Tested, stepped: State) -> State
    ensures { result ≡ cond (picture state tested.seen) state (cond (urgent tested.seen && all_open_spec tested.seen) Off stepped) }
{
    if shows_picture(state, tested) {
        return state;
    }
    let urgent = is_urgent(tested.seen);
    if urgent & all_open(tested) {
        return State::Off;
    }
    stepped
}

pub fn next_state(state: State, tested: Tested) -> State
    ensures { result ≡ next_state_spec state tested.seen }
{
    match state {
        State::Off => by_rules(State::Off, tested, from_off(tested)),
        State::Rising => by_rules(State::Rising, tested, from_rising(tested)),
        State::Precharge => by_rules(State::Precharge, tested, from_precharge(tested)),
        State::Both => by_rules(State::Both, tested, only_to(State::On, tested)),
        State::On => by_rules(State::On, tested, from_on(tested)),
        State::Falling => by_rules(State::Falling, tested, only_to(State::Off, tested)),
        State::Fault => from_fault(tested),
    }
}
