// The worked examples, book and ledger together: this crate holds one theorem alone, in specs/Examples.antt.
#![tactic(auto)]
