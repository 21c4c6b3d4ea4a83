// The frame lister: what frames carry, readings in thousandths (crate `lister`).
#![tactic(auto)]

use signal_lines::Figures;

fn main(rt: HostRuntime) {
    lister::run(&rt, &mut rt.stdin(), Figures::InThousandths);
}
