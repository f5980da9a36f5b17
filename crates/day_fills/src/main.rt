// The day program. Run by `rt check` on the worked day.
#![tactic(auto)]

fn main(rt: HostRuntime) {
    day_booking::take(&rt);
}
