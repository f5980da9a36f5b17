// Runs the worked examples and the corners of the limits: the file stdin is a list of operations, and what is printed is held to the file
// stdout, whose answers are literal numbers.
#![tactic(auto)]

fn main(rt: HostRuntime) {
    replaying::run(&rt);
}
