// A recording of a night: its records, and what a replay carries from one to the next. What they mean is in specs/.
#![tactic(auto)]

// Records of a recording, at most, the first one included.
pub const RECORDS: usize = 65536;

// Events that are decoded at a time, at most.
pub const BATCH: usize = 64;

// Widths in bytes of the numbers in a record's body, behind the stamp and in this order; 0: the kind has none. A task number has 2, a CPU
// number 1.
#[derive(Clone, Copy)]
pub struct Layout {
    pub who: usize,
    pub a: usize,
    pub b: usize,
    pub mask: usize,
}

// An event record: document 01's five numbers, and its stamp in microseconds.
#[derive(Clone, Copy)]
pub struct Event {
    pub kind: u32,
    pub who: u32,
    pub a: u32,
    pub b: u32,
    pub mask: u64,
    pub stamp: u32,
}

// How a recording ends: behind a record, within one, or at one that stops the replay.
#[derive(Clone, Copy, PartialEq, Eq, Debug)]
pub enum Ending {
    Whole,
    Cut,
    Stopped,
}

// An event record that stands at a place, and the place behind it.
#[derive(Clone, Copy)]
pub struct Held {
    pub event: Event,
    pub end: usize,
}

// What a first record opens: a machine of n CPUs with a full slice of so many ticks; and the place behind it.
#[derive(Clone, Copy)]
pub struct Opening {
    pub n: usize,
    pub full: u16,
    pub end: usize,
}

// What a replay carries along: its machine's full slice, the moves and the refused events so far, and the last event's stamp.
#[derive(Clone, Copy)]
pub struct Course {
    pub full: u16,
    pub moves: u64,
    pub refused: u32,
    pub last: u32,
}
