// The CPUs below each level, for many questions of one record: whether some CPU of a mask is below a level is then one AND.
#![tactic(auto)]

ghost use Rattle.std.specs.Prelude.{◌≡◌, List, ℕ, ◌≤◌, ◌<◌, length, get_or, set};
ghost use Rattle.levels.specs.Level.{level_count, cpu_places};
ghost use Rattle.levels.specs.Record.{masks_of};
ghost use Rattle.under.specs.Under.{under_of};

use levels::record::LEVELS;

// Works them out from the masks, level by level: below the lowest there is none.
pub fn fill(masks: &[u64; LEVELS], under: &mut [u64; LEVELS])
    requires { (length under.old ≡ level_count) × (get_or under.old 0 0 ≡ 0) }
    ensures { (levels : List ℕ) → masks.now ≡ masks_of levels → under.new ≡ under_of levels }
{
    for level in 1..LEVELS {
        under[level] = under[level - 1] | masks[level - 1];
    }
}

// A CPU rises from a level to a higher one: it is no longer below the levels that it rose past.
pub fn rise(under: &mut [u64; LEVELS], cpu: usize, from: u8, to: u8)
    requires under_len { length under.old ≡ level_count }
    requires cpu_lt_cpu_places { (cpu < cpu_places) × (from ≤ to) × (to < level_count) }
    ensures { (levels : List ℕ) → under.old ≡ under_of levels → length levels ≡ cpu_places → get_or levels cpu 0 ≡ from
        → under.new ≡ under_of (set levels cpu to) }
{
    for word in &mut under[from as usize + 1..=to as usize] {
        *word = bits::clear_bit(*word, cpu);
    }
}
