// That nothing leaks from the account: this crate holds theorems alone, stated in specs/Balance.antt.
#![tactic(auto)]
