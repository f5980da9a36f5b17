// Answers as numbers: the number of an answer (docs/ANSWERS.md) and its values, each as a size and a sign. The number and the values of each refusal
// stand here once, for the programs that print them and for callers that are not Rattle.
#![tactic(auto)]

pub mod answers; // answers.rt: each kind of answer as a Told

// A whole number: its size, and whether it is negative.
#[repr(C)]
#[derive(Clone, Copy)]
pub struct Whole {
    pub size: u64,
    pub negative: bool,
}

// The number of an answer, and the values that it carries, at most four; those behind `count` are 0. Named fields and a count, and no slice: the C
// interface hands them over so.
#[repr(C)]
#[derive(Clone, Copy)]
pub struct Told {
    pub number: u64,
    pub count: u64,
    pub first: Whole,
    pub second: Whole,
    pub third: Whole,
    pub fourth: Whole,
}
