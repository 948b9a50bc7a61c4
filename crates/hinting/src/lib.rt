// Who can move after an event on a settled machine, and after each step: where the steps look.
#![tactic(auto)]

pub mod hint;
pub mod past;
