// The lowest-priority search (the kernel's cpupri_find): from one level that has a CPU to the next, by the two words of
// level bits, until one has an allowed CPU. It reads one mask for each level that has a CPU.
ghost use Rattle.std.specs.Prelude.{◌≡◌, false, ℕ, ◌+◌, ◌≤◌, ◌<◌, length, MatchOption};
ghost use Rattle.bits.specs.Bit.{bit, count};
ghost use Rattle.levels.specs.Level.{level_count, word_count, cpu_places};
ghost use Rattle.levels.specs.Record.{lent_record};
ghost use Rattle.consistency.specs.Consistent.{Sized};
ghost use Rattle.cpupri.specs.Found.{mask_fits, marked, Marked, lowest_below, lowest_found, found};
ghost use Rattle.cpupri.specs.Search.{Passed, LowestIn, NoneIn};

use consistency::is_consistent;
use levels::record::{CPUS, LEVELS, Record};
use refusal::Refusal;

// Levels in a word.
const BITS: usize = 64;

// What a search found.
#[derive(Clone, Copy)]
pub struct Found {
    // of the levels below the asked one, the lowest that has an allowed CPU
    pub lowest: Option<Lowest>,
    // how many masks were read
    pub read: u32,
}

// A level, and the allowed CPUs at it.
#[derive(Clone, Copy)]
pub struct Lowest {
    pub level: u8,
    pub mask: u64,
}

// The CPUs of `mask` that run at the lowest level below `level`, of a machine of n CPUs, and how many masks were read. Refused:
// n not 1 to 64 (1), an inconsistent record (2), a level over 101 (7), a mask of 0 or with a bit at
// n or above (8); the first that applies.
pub fn find(n: usize, r: Record, level: u32, mask: u64) -> Result<Found, Refusal>
    ensures { result ≡ found n r level mask }
{
    find_in(n, &r.masks, &r.counts, &r.words, &r.levels, level, mask)
}

// The same in a record that is lent as its four tables.
pub fn find_in<'a>(
    n: usize,
    masks: &'a [u64],
    counts: &'a [u8],
    words: &'a [u64],
    levels: &'a [u8],
    level: u32,
    mask: u64,
) -> Result<Found, Refusal>
    requires { Sized (lent_record masks.now counts.now words.now levels.now) }
    ensures { result ≡ found n (lent_record masks.now counts.now words.now levels.now) level mask }
{
    if !((0 < n) & (n <= CPUS)) {
        return Err(Refusal::BadSize);
    }
    if !is_consistent(n, masks, counts, words, levels) {
        return Err(Refusal::IllFormed);
    }
    let asked = level as usize;
    if LEVELS <= asked {
        return Err(Refusal::BadValue);
    }
    if !mask_fits(n, mask) {
        return Err(Refusal::BadMask);
    }
    Ok(lowest_found(masks, words, asked, mask))
}

// Whether a mask is one of n CPUs: not 0, and no bit at n or above.
pub fn mask_fits(n: usize, mask: u64) -> bool
    requires { n ≤ cpu_places }
    ensures { result ≡ mask_fits n mask }
{
    if n == CPUS {
        return mask != 0;
    }
    (mask != 0) & (mask >> n == 0)
}

// The search itself, over a record's masks and words.
fn lowest_found(masks: &[u64], words: &[u64], below: usize, mask: u64) -> Found
    requires below_le_level_count { below ≤ level_count }
    requires marked { Marked masks.now words.now }
    requires masks_len { (length masks.now ≡ level_count) × (length words.now ≡ word_count) }
    ensures { result ≡ lowest_found masks.now below mask }
{
    match lowest_level(masks, words, below, mask) {
        None => Found {
            lowest: None,
            read: marked_below(words, below),
        },
        Some(level) => {
            let lowest = Lowest {
                level: level as u8,
                mask: masks[level] & mask,
            };
            Found {
                lowest: Some(lowest),
                read: marked_below(words, level + 1),
            }
        }
    }
}

// The lowest level below `below` that has a CPU of the mask.
pub fn lowest_level(masks: &[u64], words: &[u64], below: usize, mask: u64) -> Option<usize>
    requires below_le_level_count { below ≤ level_count }
    requires marked { Marked masks.now words.now }
    requires masks_len { (length masks.now ≡ level_count) × (length words.now ≡ word_count) }
    ensures { result ≡ lowest_below masks.now below mask }
{
    if let Some(level) = lowest_in(masks, words[0], 0, below, mask) {
        return Some(level);
    }
    if below <= BITS {
        return None;
    }
    lowest_in(masks, words[1], BITS, below, mask)
}

// The same among the levels of one word, which begin at level `base`: one that has no bit in it has no CPU.
fn lowest_in(masks: &[u64], word: u64, base: usize, below: usize, mask: u64) -> Option<usize>
    requires base_bound { (base ≤ 64) × (below ≤ level_count) }
    requires passed { Passed masks.now mask base word }
    requires masks_len { length masks.now ≡ level_count }
    ensures { MatchOption result (NoneIn masks.now mask base below) (λ level. LowestIn masks.now mask base below level) }
{
    let mut active = levels_below(word, base, below);
    while active != 0 {
        let at = base + bits::lowest_bit(active) as usize;
        if masks[at] & mask != 0 {
            return Some(at);
        }
        active = bits::clear_lowest(active);
    }
    None
}

// The bits of a word, whose levels begin at `base`, for the levels below `below`.
fn levels_below(word: u64, base: usize, below: usize) -> u64
    ensures kept { (c : ℕ) → c < 64 → base + c < below → bit result c ≡ bit word c }
    ensures cut { (c : ℕ) → c < 64 → below ≤ base + c → bit result c ≡ false }
{
    if below <= base {
        return 0;
    }
    let levels = below - base;
    if BITS <= levels {
        return word;
    }
    bits::low_bits(word, levels)
}

// How many levels below `end` are marked in the words.
fn marked_below(words: &[u64], end: usize) -> u32
    requires end_le_level_count { end ≤ level_count }
    requires words_len { length words.now ≡ word_count }
    ensures { result ≡ count (marked words.now) end }
{
    if end <= BITS {
        return bits::count_bits(bits::low_bits(words[0], end));
    }
    bits::count_bits(words[0]) + bits::count_bits(bits::low_bits(words[1], end - BITS))
}
