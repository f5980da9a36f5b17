// What the text of a day says, and that what is kept of it says the same: this crate holds theorems alone, stated in specs/Texts.antt.
#![tactic(auto)]
