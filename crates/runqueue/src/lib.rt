// Run queues in lent tables: a row of 512 places lists the tasks of one CPU in run order, the first of
// them runs, and unused places hold 65535. All rows stand in one table, row c from place 512 * c on,
// with a count for each.
#![tactic(auto)]

pub mod row;
pub mod table;
