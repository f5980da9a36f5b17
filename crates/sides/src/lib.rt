// What the sides of a book answer: the definitions, each in one place, and the functions over the best levels and over the sums of both sides, on
// rows that are lent. What is asked at a price or for a target, and the questions of one kind as values, stand in `asked`.
#![tactic(auto, unfolding(crate::specs::Questions::best_level, crate::specs::Questions::of_both, crate::specs::Best::is_apart, crate::specs::Best::best_of))]

pub mod top; // top.rt: the best levels, and what is made of both
pub mod volume; // volume.rt: what is made of two quantities
