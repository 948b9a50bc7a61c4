// The CPU-priority record as a C caller lends it, four tables; and the finder's answer as C has it.
#![tactic(auto)]

ghost use Rattle.std.specs.Prelude.{◌≡◌, true, length};
ghost use Rattle.levels.specs.Record.{lent_record};
ghost use Rattle.cpupri.specs.Found.{answer_of};
ghost use Rattle.lentrecord.specs.Entry.{answer};
ghost use Rattle.lentrecord.specs.Lent.{record_lengths_fit};

use cpupri::find::Found;
use cpupri::level::Level;
use cpupri::record::{CPUS, LEVELS, Record, WORDS};
use refusal::Refusal;

// Whether the four tables have the record's lengths.
pub fn lengths_fit(masks: usize, counts: usize, words: usize, levels: usize) -> bool
    ensures { result ≡ record_lengths_fit masks counts words levels }
{
    (masks == LEVELS) & (counts == LEVELS) & (words == WORDS) & (levels == CPUS)
}

// A record to load the tables into.
pub const EMPTY: Record = Record {
    masks: [0; LEVELS],
    counts: [0; LEVELS],
    words: [0; WORDS],
    levels: [0; CPUS],
};

// The record holds the four tables.
pub fn load(masks: &[u64], counts: &[u8], words: &[u64], levels: &[u8], record: &mut Record)
    requires { record_lengths_fit (length masks.now) (length counts.now) (length words.now) (length levels.now) ≡ true }
    ensures { «record».new ≡ lent_record masks.now counts.now words.now levels.now }
{
    record.masks.copy_from_slice(masks);
    record.counts.copy_from_slice(counts);
    record.words.copy_from_slice(words);
    record.levels.copy_from_slice(levels);
}

// The four tables hold the record.
pub fn write(
    record: &Record,
    masks: &mut [u64],
    counts: &mut [u8],
    words: &mut [u64],
    levels: &mut [u8],
)
    requires { record_lengths_fit (length masks.old) (length counts.old) (length words.old) (length levels.old) ≡ true }
    ensures { lent_record masks.new counts.new words.new levels.new ≡ «record».now }
{
    masks.copy_from_slice(&record.masks);
    counts.copy_from_slice(&record.counts);
    words.copy_from_slice(&record.words);
    levels.copy_from_slice(&record.levels);
}

// What the finder found, told to a C caller: its level and CPUs where the caller wants them, 255 and 0 if there are none, how many masks were
// read, and the number that is returned.
pub fn tell(found: Result<Found, Refusal>, level: &mut u8, mask: &mut u64, read: &mut u32) -> u8
    ensures { answer result level.new mask.new read.new ≡ answer_of found }
{
    let invalid = Level::INVALID;
    *level = invalid.number;
    *mask = 0;
    *read = 0;
    match found {
        Ok(found) => {
            *read = found.read;
            if let Some(lowest) = found.lowest {
                *level = lowest.level;
                *mask = lowest.mask;
            }
            0
        }
        Err(refusal) => refusal.number(),
    }
}
