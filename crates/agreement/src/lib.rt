// That the book a receiver shows is the sender's: this crate holds theorems alone, stated in specs/Agreement.antt.
#![tactic(auto)]
