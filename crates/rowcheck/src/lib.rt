// Whether one row of lent tables is well-formed. Its tasks join the set of those that stand in rows.
#![tactic(auto)]

pub mod marks;
pub mod row;
