// Reads the frames on standard input by the books there.
#![tactic(auto)]

fn main(rt: HostRuntime) {
    frame_cases::run(&rt);
}
