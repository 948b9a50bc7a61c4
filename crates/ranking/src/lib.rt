// One row of 512 places looked through: where a task stands, and how many tasks are not below a key.
#![tactic(auto)]

ghost use Rattle.std.specs.Prelude.{◌≡◌, true, false, ℕ, ◌+◌, ◌-◌, ◌/◌, ◌≤◌, ◌<◌, ltb, length, get_or};
ghost use Rattle.rules.specs.Lists.{In, place};
ghost use Rattle.rules.specs.Machine.{task_places};
ghost use Rattle.ranking.specs.Row.{Ordered, LowerFrom, Ends, block, ahead};

// Places that are looked through at once.
pub const BLOCK: usize = 16;

// A walk of this many places is no longer than a search.
const NEAR: usize = 8;

// Where the task stands in the row. The first places are asked one by one, written out: after six such branches the compiler takes
// the search of a long row for rare and leaves it a call, and with more it would no longer inline this where tasks leave.
pub fn position(row: &[u16], task: u16) -> usize
    requires row_len { length row.now ≡ task_places }
    requires stands { In task row.now }
    ensures { result ≡ place task row.now }
{
    if row[0] == task {
        return 0;
    }
    if row[1] == task {
        return 1;
    }
    if row[2] == task {
        return 2;
    }
    if row[3] == task {
        return 3;
    }
    if row[4] == task {
        return 4;
    }
    if row[5] == task {
        return 5;
    }
    far_position(row, task)
}

// The same in a long row: the block, then the place within it.
fn far_position(row: &[u16], task: u16) -> usize
    requires row_len { length row.now ≡ task_places }
    requires stands { In task row.now }
    ensures { result ≡ place task row.now }
{
    let mut at = first_block(row, task);
    // it stands there, so the walk needs no end; `position` would answer an Option to be taken apart
    while row[at] != task {
        at += 1;
    }
    at
}

// Where the first block that has the task starts: it does not stand before.
fn first_block(row: &[u16], task: u16) -> usize
    requires row_len { length row.now ≡ task_places }
    requires stands { In task row.now }
    ensures { result ≤ place task row.now }
{
    // likewise: one of the blocks has it
    let mut block = 0;
    while !any_in_block(row, block * BLOCK, |place| place == task) {
        block += 1;
    }
    block * BLOCK
}

// Whether a place of the block that starts here passes the test. All its places are looked at before it is decided, which the compiler
// makes many at a time.
pub fn any_in_block<F: Fn(u16) -> bool>(places: &[u16], from: usize, test: F) -> bool
    requires block_in_bounds { from + block ≤ length places.now }
    requires callable { F.IsAlwaysCallable test }
    ensures some { result ≡ true → (k : ℕ) × (k < block) × F.post test (get_or places.now (from + k) 0) true }
    ensures none { result ≡ false → (k : ℕ) → k < block → F.post test (get_or places.now (from + k) 0) false }
{
    let mut found = false;
    for &place in &places[from..from + BLOCK] {
        found = found | test(place);
    }
    found
}

// How many of the tasks in a row are not below the key. Priorities fall along a row: most enter at its end or near it, so that the walk
// starts there.
pub fn rank(row: &[u16], prio: &[u8], key: u8) -> usize
    requires { Ordered prio.now row.now }
    ensures { result ≡ ahead (λ u. ltb (get_or prio.now u 0) key) row.now }
{
    let count = row.len();
    if ends_at(row, prio, count, key) {
        return count;
    }
    let mut at = bound(&row[..count - 1], prio, key);
    // down to a place that is tested, not to a number
    while !ends_at(row, prio, at, key) {
        at -= 1;
    }
    at
}

// Whether the tasks that are not below the key end here: no task stands before, or one that is not below it.
fn ends_at(row: &[u16], prio: &[u8], at: usize, key: u8) -> bool
    requires ordered { Ordered prio.now row.now }
    requires at_in_row { at ≤ length row.now }
    ensures { Ends prio.now row.now key at result }
{
    if at == 0 {
        return true;
    }
    let last = row[at - 1] as usize;
    prio[last] >= key
}

// A place from which on all are below the key: the end, unless that is far from the first of them.
fn bound(row: &[u16], prio: &[u8], key: u8) -> usize
    requires { Ordered prio.now row.now }
    ensures { LowerFrom prio.now row.now key result }
{
    let count = row.len();
    if count <= NEAR {
        return count;
    }
    let far = count - NEAR - 1;
    if ends_at(row, prio, far + 1, key) {
        return count;
    }
    search(&row[..far], prio, key)
}

// The first of these places, by a binary search; or the one behind it.
fn search(row: &[u16], prio: &[u8], key: u8) -> usize
    requires { Ordered prio.now row.now }
    ensures { LowerFrom prio.now row.now key result }
{
    let mut start = 0;
    let mut size = row.len();
    // a search by halves has no count of its turns; std's looks for a key in the slice, and here it is in another table
    while size > 1 {
        start = halve(row, prio, key, start, size);
        size -= size / 2;
    }
    start + size
}

// The start of the half in which the search goes on, where those behind both halves are below the key.
fn halve(row: &[u16], prio: &[u8], key: u8, start: usize, size: usize) -> usize
    requires ordered { Ordered prio.now row.now }
    requires lower_from { LowerFrom prio.now row.now key (start + size) }
    requires lt_size { 1 < size }
    ensures { LowerFrom prio.now row.now key (result + (size - size / 2)) }
{
    let middle = start + size / 2;
    if ends_at(row, prio, middle + 1, key) {
        return middle;
    }
    start
}
