// The CPU-priority record (the kernel's struct cpupri).
ghost use Rattle.std.specs.Prelude.{◌≡◌, true, ◌≤◌, ◌<◌, set};
ghost use Rattle.levels.specs.Level.{known, cpu_places};
ghost use Rattle.levels.specs.Record.{record_of, fresh_levels, Whole};

use super::lent::set_level;
use super::level::Level;

pub const LEVELS: usize = 102;

pub const WORDS: usize = 2;

pub const CPUS: usize = 64;

#[derive(Clone, Copy)]
pub struct Record {
    // for each level the CPUs at it, bit c for CPU c
    pub masks: [u64; LEVELS],
    // for each level how many CPUs are at it
    pub counts: [u8; LEVELS],
    // bit L % 64 of word L / 64 is set exactly if level L has a CPU
    pub words: [u64; WORDS],
    // the level of each CPU
    pub levels: [u8; CPUS],
}

impl Record {
    // The record of a fresh machine of n CPUs: all of them idle.
    pub fn fresh(n: usize) -> Record
        requires { n ≤ cpu_places }
        ensures { result ≡ record_of (fresh_levels n) }
    {
        let mut r = Record {
            masks: [0; LEVELS],
            counts: [0; LEVELS],
            words: [0; WORDS],
            levels: [Level::INVALID.number; CPUS],
        };
        for cpu in 0..n {
            set_level(
                &mut r.masks,
                &mut r.counts,
                &mut r.words,
                &mut r.levels,
                cpu,
                Level::IDLE,
            );
        }
        r
    }

    // The record with the CPU at another level. Either level may be INVALID.
    pub fn set_level(self, cpu: usize, level: Level) -> Record
        requires whole { Whole self }
        requires cpu_lt_cpu_places { cpu < cpu_places }
        requires number_value { known level.number ≡ true }
        ensures { result ≡ record_of (set self.levels cpu level.number) }
    {
        let mut r = self;
        set_level(
            &mut r.masks,
            &mut r.counts,
            &mut r.words,
            &mut r.levels,
            cpu,
            level,
        );
        r
    }
}
