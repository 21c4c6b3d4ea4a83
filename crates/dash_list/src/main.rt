// The lister for the dash: what frames carry, readings as the bits of doubles (crate `lister`).
#![tactic(auto)]

use signal_lines::Figures;

fn main(rt: HostRuntime) {
    lister::run(&rt, &mut rt.stdin(), Figures::AsDoubles);
}
