// The rules are definitions and theorems (specs/, proofs/). The code here is their numbers.
#![tactic(auto)]

pub mod answer;
pub mod log;
pub mod task;
