// The record's four tables, lent: they are changed in place.
ghost use Rattle.std.specs.Prelude.{◌≡◌, true, ◌<◌, set};
ghost use Rattle.levels.specs.Level.{known, cpu_places};
ghost use Rattle.levels.specs.Record.{record_of, Whole};
ghost use Rattle.levels.specs.Record.{lent_record};

use super::level::Level;
use super::record::{CPUS, LEVELS, WORDS};

// The CPU goes to another level: out of the old level's mask, count and bit, and into the new one's. Either
// level may be INVALID.
pub fn set_level(
    masks: &mut [u64; LEVELS],
    counts: &mut [u8; LEVELS],
    words: &mut [u64; WORDS],
    levels: &mut [u8; CPUS],
    cpu: usize,
    level: Level,
)
    requires whole { Whole (lent_record masks.old counts.old words.old levels.old) }
    requires cpu_lt_cpu_places { cpu < cpu_places }
    requires number_value { known level.number ≡ true }
    ensures { lent_record masks.new counts.new words.new levels.new ≡ record_of (set levels.old cpu level.number) }
{
    let invalid = Level::INVALID;
    // out of the old level
    let old = levels[cpu];
    if old != invalid.number {
        let o = old as usize;
        masks[o] = bits::clear_bit(masks[o], cpu);
        let count = counts[o] - 1;
        counts[o] = count;
        words[o / 64] = bits::put_bit(words[o / 64], o % 64, count != 0);
        levels[cpu] = invalid.number;
    }
    // and into the new one
    if level.number == invalid.number {
        return;
    }
    let l = level.number as usize;
    masks[l] = bits::set_bit(masks[l], cpu);
    counts[l] = counts[l] + 1;
    words[l / 64] = bits::set_bit(words[l / 64], l % 64);
    levels[cpu] = level.number;
}
