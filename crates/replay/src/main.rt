// Replays a list of the original's answers: the files stdin and stdout are operations on which the two agree, and the Rust original's answers
// to them, both written by oracle/replay, so that the gate holds this library to the original where there is no Rust compiler.
#![tactic(auto)]

fn main(rt: HostRuntime) {
    replaying::run(&rt);
}
