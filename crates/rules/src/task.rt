// The numbers in a task's columns.

// states
pub const FREE: u8 = 0;

pub const ASLEEP: u8 = 1;

pub const RUNNABLE: u8 = 2;

// policies: SCHED_FIFO, SCHED_RR
pub const FIFO: u8 = 1;

pub const RR: u8 = 2;

// priorities, larger is higher
pub const LOWEST_PRIORITY: u8 = 1;

pub const HIGHEST_PRIORITY: u8 = 99;

// a full time slice, in ticks: the longest, and the one of a machine whose maker is told none
pub const LONGEST_SLICE: u32 = 1000;

pub const DEFAULT_SLICE: u32 = 25;
