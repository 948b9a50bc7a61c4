// Where tasks wait: the CPUs on which one does, and the waiting tasks of one row.
#![tactic(auto)]

pub mod cpus;
pub mod scan;
