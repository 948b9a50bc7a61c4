// What an event does, as a value: nothing, a plan for one task, a flag, or a CPU that goes or comes back.
#![tactic(auto)]

pub mod checks;
pub mod columns;
pub mod event;
pub mod plan;
