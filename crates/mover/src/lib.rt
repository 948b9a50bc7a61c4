// The foremost of the waiting tasks that pass a test, of all rows.
#![tactic(auto)]

pub mod pick;
