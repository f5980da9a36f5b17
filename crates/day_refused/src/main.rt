// The day program, on a day whose middle fill is refused: remarks, empty lines, blanks of each kind, zeros in front, several symbols, a short position.
#![tactic(auto)]

fn main(rt: HostRuntime) {
    day_booking::take(&rt);
}
