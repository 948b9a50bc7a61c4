// Reading a recording: its first record, then event records, a batch at a time.
#![tactic(auto)]

pub mod batch;
pub mod body;
pub mod first;
pub mod item;
pub mod number;
