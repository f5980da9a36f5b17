// The feed program on a feed with each kind of damage.
#![tactic(auto)]

fn main(rt: HostRuntime) {
    feeding::take(&rt);
}
