// Whether a record is consistent in itself: one pass over the CPUs gathers the counts and words that their levels
// determine, and takes each CPU out of a copy of the masks. Then the counts and words must be the lent ones, and of
// the masks nothing may be left.
#![tactic(auto)]

ghost use Rattle.std.specs.Prelude.{◌≡◌, ℕ, ◌+◌, ◌/◌, ◌%◌, ◌^◌, ◌<◌, ◌≤◌, min, length, slice_index, slice_set};
ghost use Rattle.bits.specs.Bit.{with_bit};
ghost use Rattle.levels.specs.Level.{level_count, cpu_places};
ghost use Rattle.levels.specs.Record.{lent_record};
ghost use Rattle.whole.specs.Whole.{invalid_from, same};
ghost use Rattle.consistency.specs.Consistent.{consistent, Sized};
ghost use Rattle.consistency.specs.Gathered.{cpu_bit, Gathered, Gathers};

use levels::level::Level;
use levels::record::{CPUS, LEVELS, WORDS};
use whole::compare::{each_invalid, none_u64, same_u64};
use whole::eights::{alike, all_invalid, same_u8};

// From here on eight places are left.
const LAST: usize = 56;

// Whether the masks, counts, words and levels of a record say the same, for n CPUs.
pub fn is_consistent<'a>(
    n: usize,
    masks: &'a [u64],
    counts: &'a [u8],
    words: &'a [u64],
    levels: &'a [u8],
) -> bool
    requires { Sized (lent_record masks.now counts.now words.now levels.now) }
    ensures { result ≡ consistent n (lent_record masks.now counts.now words.now levels.now) }
{
    let unused = Level::UNUSED.number as usize;
    let mut left = [0; LEVELS];
    left.copy_from_slice(&masks[..LEVELS]); // by a constant: so the zeros above are not written
    let mut right_counts = [0; LEVELS];
    let mut right_words = [0; WORDS];
    if !gather(
        places(n),
        levels,
        &mut left,
        &mut right_counts,
        &mut right_words,
    ) {
        return false;
    }
    // what the pass wrote is looked at last: read at once in wider pieces, it would have to be waited for
    same_u64(words, &right_words)
        & (counts[unused] == 0)
        & absent(n, levels)
        & none_u64(&left)
        & same_u8(counts, &right_counts)
}

// How many of a record's places are below n.
fn places(n: usize) -> usize
    ensures { result ≡ min n cpu_places }
{
    if n < CPUS { n } else { CPUS }
}

// Whether all places from n on hold INVALID.
fn absent(n: usize, levels: &[u8]) -> bool
    requires { length levels.now ≡ cpu_places }
    ensures { result ≡ same levels.now (invalid_from n levels.now) }
{
    let start = places(n);
    if start <= LAST {
        return all_invalid(levels, start, LAST);
    }
    each_invalid(levels, start)
}

// The pass over the CPUs below `end`: eight at a time, and the rest one by one. Whether each is at a level or at INVALID.
// What it writes is lent as three tables: as fields of one struct the two words would not stay in registers.
fn gather(
    end: usize,
    from: &[u8],
    left: &mut [u64; LEVELS],
    counts: &mut [u8; LEVELS],
    words: &mut [u64; WORDS],
) -> bool
    requires from_len { length from.now ≡ cpu_places }
    requires end_le_cpu_places { end ≤ cpu_places }
    requires gathered { Gathered from.now 0 counts.old words.old }
    ensures { Gathers from.now 0 end result left.old left.new counts.new words.new }
{
    let rest = end - end % 8;
    let mut cpus = 1;
    for cpu in (0..rest).step_by(8) {
        if !block(cpu, cpus, from, left, counts, words) {
            return false;
        }
        cpus <<= 8;
    }
    each(rest, end, cpus, from, left, counts, words)
}

// The pass over eight CPUs, the first of them with its bit: idle ones often stand together.
fn block(
    cpu: usize,
    cpus: u64,
    from: &[u8],
    left: &mut [u64; LEVELS],
    counts: &mut [u8; LEVELS],
    words: &mut [u64; WORDS],
) -> bool
    requires from_len { length from.now ≡ cpu_places }
    requires cpu_bound { (cpu + 8 ≤ cpu_places) × (cpus ≡ cpu_bit cpu) }
    requires gathered { Gathered from.now cpu counts.old words.old }
    ensures { Gathers from.now cpu (cpu + 8) result left.old left.new counts.new words.new }
{
    if alike(from, cpu) {
        return take(cpu, cpus * 255, 8, from, left, counts, words);
    }
    each(cpu, cpu + 8, cpus, from, left, counts, words)
}

// The pass over the CPUs from `start` to before `end`, one by one, with the first one's bit.
fn each(
    start: usize,
    end: usize,
    mut cpus: u64,
    from: &[u8],
    left: &mut [u64; LEVELS],
    counts: &mut [u8; LEVELS],
    words: &mut [u64; WORDS],
) -> bool
    requires from_len { length from.now ≡ cpu_places }
    requires start_le_end { (start ≤ end) × (end ≤ cpu_places) × (cpus ≡ cpu_bit start) }
    requires gathered { Gathered from.now start counts.old words.old }
    ensures { Gathers from.now start end result left.old left.new counts.new words.new }
{
    for cpu in start..end {
        if !take(cpu, cpus, 1, from, left, counts, words) {
            return false;
        }
        cpus <<= 1;
    }
    true
}

// The next CPUs, `more` of them that are all at one level, and as a mask: out of what is left of its mask, and into its count and bit.
// INVALID has none of them.
fn take(
    cpu: usize,
    cpus: u64,
    more: u8,
    from: &[u8],
    left: &mut [u64; LEVELS],
    counts: &mut [u8; LEVELS],
    words: &mut [u64; WORDS],
) -> bool
    requires from_len { length from.now ≡ cpu_places }
    requires le_more { (1 ≤ more) × (cpu + more ≤ cpu_places) × (cpus + 2 ^ cpu ≡ 2 ^ (cpu + more)) }
    requires alike { (i : ℕ) → i < more → slice_index from.now (cpu + i) ≡ slice_index from.now cpu }
    requires gathered { Gathered from.now cpu counts.old words.old }
    ensures { Gathers from.now cpu (cpu + more) result left.old left.new counts.new words.new }
{
    let level = from[cpu];
    if LEVELS as u8 <= level {
        return level == Level::INVALID.number;
    }
    let l = level as usize;
    left[l] = left[l].wrapping_sub(cpus);
    counts[l] += more;
    mark(words, l);
    true
}

// A level's bit is set.
fn mark(words: &mut [u64; WORDS], level: usize)
    requires { level < level_count }
    ensures { words.new ≡ slice_set words.old (level / 64) (with_bit (slice_index words.old (level / 64)) (level % 64)) }
{
    if level < 64 {
        words[0] = bits::set_bit(words[0], level);
    } else {
        words[1] = bits::set_bit(words[1], level - 64);
    }
}
