// One possible result: that any two results meeting the promise of a public call are equal. This crate holds theorems alone, one file of specs/ a crate.
#![tactic(auto)]
