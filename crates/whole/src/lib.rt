// Tables looked at whole: compared many places at a time.
#![tactic(auto)]

pub mod compare;
pub mod eights;
