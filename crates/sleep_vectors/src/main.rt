// Runs the sleep watch over the clock sequences on standard input. A line is a letter and a time in eight hex digits: N
// starts a new watch, awake at that time; W is a call with wake on, O one with wake off. Each call gives a line, the
// watch after it, or `no` and the refusal.
#![tactic(auto)]

use numerals::identifier_or_0;
use sleep::Watch;
use std::io::Read;
use streams::{print_bytes, print_decimal, print_refusal, read_full};

// More turns than the input has lines.
const MOST_TURNS: u32 = 1000000;

// What the main loop does next.
#[derive(Clone, Copy)]
enum Turn {
    // A new watch, awake at the time.
    Start(u32),
    Call { time: u32, wake: bool },
}

// The turn of the next line; none where the input has ended.
fn next_turn<R: Read>(input: &mut R) -> Option<Turn> {
    let mut line = [0u8; 10];
    if read_full(input, &mut line) < 10 {
        return None;
    }
    let time = identifier_or_0(&line[1..9]);
    match line[0] {
        b'N' => Some(Turn::Start(time)),
        letter => Some(Turn::Call {
            time,
            wake: letter == b'W',
        }),
    }
}

fn print_watch(rt: &impl Print, watch: Watch) {
    if watch.asleep {
        print_bytes(rt, b"asleep\t");
    } else {
        print_bytes(rt, b"awake\t");
    }
    print_decimal(rt, u64::from(watch.last_wake));
    print_bytes(rt, b"\n");
}

// The main loop keeps one watch, and lends it to `update` at each turn.
fn main(rt: HostRuntime) {
    let mut input = rt.stdin();
    let mut watch = Watch::new(0);
    for _ in 1..MOST_TURNS {
        let Some(turn) = next_turn(&mut input) else {
            return;
        };
        match turn {
            Turn::Start(time) => watch = Watch::new(time),
            Turn::Call { time, wake } => match sleep::update(&mut watch, time, wake) {
                Ok(()) => print_watch(&rt, watch),
                Err(why) => print_refusal(&rt, u32::from(why)),
            },
        }
    }
}
