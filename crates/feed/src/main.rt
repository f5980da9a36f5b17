// The feed program, run here on the four lines of examples/four.feed.
#![tactic(auto)]

fn main(rt: HostRuntime) {
    feeding::take(&rt);
}
