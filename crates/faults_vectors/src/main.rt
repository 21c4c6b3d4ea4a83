// Runs the fault sum over the counts on standard input. A line is how many counts, in two hex digits, and the counts in
// eight each. Each gives a line: `sum` and the parts of the sum, or `no` and the refusal.
#![tactic(auto)]

use faults::FaultSum;
use numerals::identifier_or_0;
use record_cases::short_hex;
use streams::{print_bytes, print_decimal, print_refusal, read_first, read_full};

const MOST_LINES: u32 = 1000000;

// The most counts on a line.
const MOST: usize = 32;

// The longest line after its count: 32 counts and the newline.
const LINE: usize = 257;

fn print(rt: &impl Print, n: u32) {
    print_bytes(rt, b"\t");
    print_decimal(rt, u64::from(n));
}

fn print_sum(rt: &impl Print, sum: FaultSum) {
    print_bytes(rt, b"sum");
    print(rt, sum.highest);
    print(rt, sum.at_1);
    print(rt, sum.at_2);
    print(rt, sum.at_3);
    print(rt, sum.set);
    print(rt, u32::from(sum.emergency));
    print(rt, u32::from(sum.agrees));
    print_bytes(rt, b"\n");
}

fn sum(rt: &impl Print, counts: &[u32]) {
    match faults::sum(counts) {
        Ok(sum) => print_sum(rt, sum),
        Err(why) => print_refusal(rt, u32::from(why)),
    }
}

// The counts of a line, eight digits each. Past the last stands what an earlier line left.
fn counts_on(line: &[u8; LINE]) -> [u32; MOST] {
    let mut counts = [0u32; MOST];
    for (count, digits) in counts.iter_mut().zip(line.chunks_exact(8)) {
        *count = identifier_or_0(digits);
    }
    counts
}

fn main(rt: HostRuntime) {
    let mut input = rt.stdin();
    let mut head = [0u8; 2];
    let mut line = [0u8; LINE];
    for _ in 0..MOST_LINES {
        if read_full(&mut input, &mut head) < 2 {
            return;
        }
        let n = short_hex(head[0], head[1]) as usize;
        if MOST < n {
            return;
        }
        read_first(&mut input, &mut line, 8 * n + 1);
        sum(&rt, &counts_on(&line)[..n]);
    }
}
