// The migration steps after an event: the highest movable task goes to one of its allowed CPUs of the
// lowest level, until no task is movable.
#![tactic(auto)]

pub mod settle;
