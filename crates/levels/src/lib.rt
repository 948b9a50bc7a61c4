// The CPU-priority record: at which level each CPU runs, and for each level which CPUs run there. Setting a level
// touches a constant number of places.
#![tactic(auto)]

pub mod lent;
pub mod level;
pub mod record;
