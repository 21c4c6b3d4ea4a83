// Runs the charging monitor over the observations on standard input. A line is a state's digit, or N for a new monitor, and
// the eleven raw counts in eight hex digits each, in the order of `ChargeObservation`. Each gives a line: the next state's
// digit, or `no` and the refusal.
#![tactic(auto)]

use catalogue::Raw;
use charging::{ChargeObservation, ChargeState};
use numerals::identifier_or_0;
use streams::{print_bytes, print_decimal, print_refusal, read_full};

const MOST_LINES: u32 = 1000000;

// The state that a line begins with: what is no digit is no state's.
fn state_of(byte: u8) -> Option<ChargeState> {
    if byte == b'N' {
        return Some(ChargeState::start());
    }
    ChargeState::try_from(u32::from(byte.wrapping_sub(b'0'))).ok()
}

fn raw_of(digits: &[u8]) -> Raw {
    Raw(identifier_or_0(digits))
}

fn observed(line: &[u8; 90]) -> ChargeObservation {
    ChargeObservation {
        plug: raw_of(&line[1..9]),
        self_check: raw_of(&line[9..17]),
        main_positive_welded: raw_of(&line[17..25]),
        main_negative_welded: raw_of(&line[25..33]),
        heating_positive_welded: raw_of(&line[33..41]),
        heating_negative_welded: raw_of(&line[41..49]),
        main_positive: raw_of(&line[49..57]),
        main_negative: raw_of(&line[57..65]),
        allowed: raw_of(&line[65..73]),
        charge_positive: raw_of(&line[73..81]),
        charge_negative: raw_of(&line[81..89]),
    }
}

fn print_number(rt: &impl Print, number: u32) {
    print_decimal(rt, u64::from(number));
    print_bytes(rt, b"\n");
}

fn step(rt: &impl Print, state: ChargeState, seen: ChargeObservation) {
    match charging::step(state, seen) {
        Ok(next) => print_number(rt, u32::from(next)),
        Err(why) => print_refusal(rt, u32::from(why)),
    }
}

fn main(rt: HostRuntime) {
    let mut input = rt.stdin();
    let mut line = [0u8; 90];
    for _ in 0..MOST_LINES {
        if read_full(&mut input, &mut line) < 90 {
            return;
        }
        let Some(state) = state_of(line[0]) else {
            return;
        };
        step(&rt, state, observed(&line));
    }
}
