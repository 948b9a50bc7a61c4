// Whether lent tables that have their lengths are well-formed, W1 to W6 but for the CPU-priority record
// in itself: one pass over the rows and one over the task columns. Which tasks stand in rows is kept in
// a set of 512 bits, so no task is searched for.
#![tactic(auto)]

pub mod columns;
pub mod rows;
