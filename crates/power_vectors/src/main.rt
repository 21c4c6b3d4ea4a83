// Runs the power monitor over the observations on standard input. A line is a state's digit, or N for a new monitor, the
// eight raw counts in eight hex digits each, in the order of `Observation`, and the share likewise, or eight hyphens where none
// is given. Each gives a line: the next state's digit, or `no` and the refusal.
#![tactic(auto)]

use catalogue::Raw;
use numerals::identifier_or_0;
use power::{Observation, State};
use streams::{print_bytes, print_decimal, print_refusal, read_full};

const MOST_LINES: u32 = 1000000;

// The state that a line begins with: what is no digit is no state's.
fn state_of(byte: u8) -> Option<State> {
    if byte == b'N' {
        return Some(State::start());
    }
    State::try_from(u32::from(byte.wrapping_sub(b'0'))).ok()
}

fn raw_of(digits: &[u8]) -> Raw {
    Raw(identifier_or_0(digits))
}

fn share_of(line: &[u8; 74]) -> Option<u32> {
    if line[65] == b'-' {
        return None;
    }
    Some(identifier_or_0(&line[65..73]))
}

fn observed(line: &[u8; 74]) -> Observation {
    Observation {
        main_negative: raw_of(&line[1..9]),
        precharge: raw_of(&line[9..17]),
        main_positive: raw_of(&line[17..25]),
        command: raw_of(&line[25..33]),
        emergency_off: raw_of(&line[33..41]),
        current: raw_of(&line[41..49]),
        inside: raw_of(&line[49..57]),
        outside: raw_of(&line[57..65]),
        share: share_of(line),
    }
}

fn print_number(rt: &impl Print, number: u32) {
    print_decimal(rt, u64::from(number));
    print_bytes(rt, b"\n");
}

fn step(rt: &impl Print, state: State, seen: Observation) {
    match power::step(state, seen) {
        Ok(next) => print_number(rt, u32::from(next)),
        Err(why) => print_refusal(rt, u32::from(why)),
    }
}

fn main(rt: HostRuntime) {
    let mut input = rt.stdin();
    let mut line = [0u8; 74];
    for _ in 0..MOST_LINES {
        if read_full(&mut input, &mut line) < 74 {
            return;
        }
        let Some(state) = state_of(line[0]) else {
            return;
        };
        step(&rt, state, observed(&line));
    }
}
