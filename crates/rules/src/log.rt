// The move log: what stands where.

// the numbers of an entry: the mover, the CPU it waited on, its destination, the level there before the move
pub const ENTRY: usize = 4;

// as many entries as an event can have moves on 64 CPUs
pub const ENTRIES: usize = 63;

pub const LOG: usize = ENTRIES * ENTRY;
