// A machine's tables with its record, and what can be done with them.
ghost use Rattle.std.specs.Prelude.{◌≤◌, ◌<◌};

use super::line::{half, small};
use cpupri::record::{CPUS, LEVELS, Record};
use defaultmaker::make_fresh_default;
use maker::{Made, make_fresh};
use plans::event::Event;
use rules::answer::Refusal;
use rules::log::LOG;
use rules::task::{FIFO, RUNNABLE};
use runqueue::row::PLACES;

// Rows, counts and flags for one CPU more than a machine can have.
const ROWS: usize = CPUS + 1;

// The tables are lent for `lent` CPUs, the first of the rows, counts and flags; anything but n is a wrong length. The full slice is what
// the maker handed back.
#[derive(Clone, Copy)]
pub struct Tables {
    pub n: u8,
    pub lent: u8,
    pub full: u32,
    pub state: [u8; PLACES],
    pub policy: [u8; PLACES],
    pub prio: [u8; PLACES],
    pub cpu: [u8; PLACES],
    pub slice: [u16; PLACES],
    pub mask: [u64; PLACES],
    pub rows: [u16; ROWS * PLACES],
    pub counts: [u16; ROWS],
    pub flags: [u8; ROWS],
    pub online: u64,
    pub log: [u16; LOG],
    pub record: Record,
}

// At most 65: a fresh machine of more is refused all the same.
fn part(cpus: u8) -> usize
    ensures { result ≤ 65 }
{
    if (cpus as usize) < ROWS {
        cpus as usize
    } else {
        ROWS
    }
}

impl Tables {
    // Tables that hold no machine yet.
    pub fn new() -> Tables {
        Tables {
            n: 0,
            lent: 0,
            full: 0,
            state: [1; PLACES],
            policy: [1; PLACES],
            prio: [1; PLACES],
            cpu: [1; PLACES],
            slice: [1; PLACES],
            mask: [1; PLACES],
            rows: [1; ROWS * PLACES],
            counts: [1; ROWS],
            flags: [1; ROWS],
            online: 0,
            log: [1; LOG],
            record: Record::fresh(0),
        }
    }

    // A fresh machine of n CPUs: the maker's answer. A full slice has so many ticks, if they are named.
    pub fn make(&mut self, n: u8, ticks: Option<u32>) -> Result<u32, Refusal> {
        *self = Tables::new();
        self.n = n;
        self.lent = n;
        let made = match ticks {
            Some(ticks) => self.make_with(ticks),
            None => self.make_default(),
        };
        self.record = made.record;
        self.full = made.answer.unwrap_or(0);
        made.answer
    }

    fn make_with(&mut self, ticks: u32) -> Made {
        let cpus = part(self.lent);
        let rows = &mut self.rows[..];
        let counts = &mut self.counts[..];
        let flags = &mut self.flags[..];
        make_fresh(
            self.n as usize,
            ticks,
            &mut self.state,
            &mut self.policy,
            &mut self.prio,
            &mut self.cpu,
            &mut self.slice,
            &mut self.mask,
            &mut rows[..PLACES * cpus],
            &mut counts[..cpus],
            &mut flags[..cpus],
            &mut self.online,
            &mut self.log,
            self.record,
        )
    }

    fn make_default(&mut self) -> Made {
        let cpus = part(self.lent);
        let rows = &mut self.rows[..];
        let counts = &mut self.counts[..];
        let flags = &mut self.flags[..];
        make_fresh_default(
            self.n as usize,
            &mut self.state,
            &mut self.policy,
            &mut self.prio,
            &mut self.cpu,
            &mut self.slice,
            &mut self.mask,
            &mut rows[..PLACES * cpus],
            &mut counts[..cpus],
            &mut flags[..cpus],
            &mut self.online,
            &mut self.log,
            self.record,
        )
    }

    // One event: its answer.
    pub fn event(&mut self, event: Event) -> Result<u32, Refusal> {
        let cpus = part(self.lent);
        let rows = &mut self.rows[..];
        let counts = &mut self.counts[..];
        let flags = &mut self.flags[..];
        let outcome = machine::event(
            self.n as usize,
            self.full,
            &mut self.state,
            &mut self.policy,
            &mut self.prio,
            &mut self.cpu,
            &mut self.slice,
            &mut self.mask,
            &mut rows[..PLACES * cpus],
            &mut counts[..cpus],
            &mut flags[..cpus],
            &mut self.online,
            &mut self.log,
            self.record,
            event,
        );
        self.record = outcome.record;
        outcome.answer
    }

    // The check of the tables: its answer.
    pub fn check(&self) -> Result<(), Refusal> {
        let cpus = part(self.lent);
        checker::check::check(
            self.n as usize,
            self.full,
            &self.state,
            &self.policy,
            &self.prio,
            &self.cpu,
            &self.slice,
            &self.mask,
            &self.rows[..PLACES * cpus],
            &self.counts[..cpus],
            &self.flags[..cpus],
            &self.online,
            &self.log,
            self.record,
        )
    }

    // One number of a table by itself, or the online mask. The tables are numbered in document 01's order.
    pub fn put(&mut self, table: u64, place: u64, value: u64) {
        let i = below(place, PLACES);
        match table {
            1 => self.state[i] = small(value),
            3 => self.prio[i] = small(value),
            4 => self.cpu[i] = small(value),
            5 => self.slice[i] = half(value),
            9 => self.flags[below(place, ROWS)] = small(value),
            10 => self.online = value,
            _ => {}
        }
    }

    // A FIFO task that runs on an idle CPU, without an event. No other CPU may be at its level.
    pub fn give(&mut self, cpu: u64, task: u64, priority: u64, mask: u64) {
        let i = below(task, PLACES);
        self.state[i] = RUNNABLE;
        self.policy[i] = FIFO;
        self.prio[i] = small(priority);
        self.cpu[i] = small(cpu);
        self.slice[i] = half(self.full as u64);
        self.mask[i] = mask;
        let row = below(cpu, CPUS);
        self.rows[PLACES * row] = half(task);
        self.counts[row] = 1;
        busy(&mut self.record, row, below(priority, 100) + 2);
    }
}

// The record has an idle CPU at a level of its own.
fn busy(record: &mut Record, c: usize, level: usize)
    requires cpu { c < 64 }
    requires level { level < 102 }
{
    let bit = 1u64 << c;
    record.masks[0] &= !bit;
    record.counts[0] = record.counts[0].saturating_sub(1);
    record.masks[level] = bit;
    record.counts[level] = 1;
    record.words[level / 64] |= 1 << (level % 64);
    record.levels[c] = level as u8;
}

// A place below the end, the last if it is beyond.
fn below(place: u64, end: usize) -> usize
    requires some { 0 < end }
    requires few { end ≤ 512 }
    ensures { result < end }
{
    if place < end as u64 {
        return place as usize;
    }
    end - 1
}
