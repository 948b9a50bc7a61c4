// CPU priority management, after the kernel's cpupri: at which level each CPU runs, and for each
// level which CPUs run there, so that the CPUs of the lowest level are found without looking at any
// run queue. Setting a level touches a constant number of places; a search
// reads one mask for each level that has a CPU.
#![tactic(auto)]

pub mod consistent;
pub mod find;
pub mod lent;
pub mod level;
pub mod record;
