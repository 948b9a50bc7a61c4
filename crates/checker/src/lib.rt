// The tables that a caller lends, checked: one pass over each.
#![tactic(auto)]

pub mod check;
