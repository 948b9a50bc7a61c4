// One row of 512 places. Leaving and entering move only those that stand behind.
ghost use Rattle.std.specs.Prelude.{◌≡◌, ℕ, ◌≤◌, ◌<◌, length, get_or, take};
ghost use Rattle.rules.specs.Lists.{In, Falling, delete};
ghost use Rattle.rules.specs.Machine.{task_places, highest_priority, queued, entry_key};
ghost use Rattle.rules.specs.Tables.{padded};
ghost use Rattle.ranking.specs.Row.{HoldsRow};
ghost use Rattle.runqueue.specs.Row.{Reorderable, Closed, Opened, task_in};

use ranking::{position, rank};

pub const PLACES: usize = 512;

// what an unused place of a row holds
pub const NOTHING: u16 = 65535;

// The task that stands in a place of a row, if it is in use.
pub fn task_in(place: u16) -> Option<u16>
    ensures { result ≡ task_in place }
{
    if place == NOTHING {
        return None;
    }
    Some(place)
}

// The task leaves, those behind it close up, and the freed place holds nothing.
pub fn remove(row: &mut [u16], count: usize, task: u16)
    requires holds_row { HoldsRow count row.old }
    requires stands { In task (take count row.old) }
    ensures { row.new ≡ padded (delete task (take count row.old)) }
{
    let at = position(row, task);
    shift_down(row, at, count);
}

// The task enters before the first whose priority is below the key.
pub fn insert(row: &mut [u16], prio: &[u8], count: usize, task: u16, key: u8)
    requires holds_row { HoldsRow count row.old }
    requires count_lt_task_places { count < task_places }
    requires prio_len { length prio.now ≡ task_places }
    requires task_numbers { (i : ℕ) → i < count → get_or row.old i 0 < task_places }
    requires falling { Falling (λ u. get_or prio.now u 0) (take count row.old) }
    ensures { row.new ≡ padded (queued key (λ u. get_or prio.now u 0) task (take count row.old)) }
{
    let at = rank(&row[..count], prio, key);
    shift_up(row, at, count);
    row[at] = task;
}

// The task goes before the first of the others whose priority is below the key. Those alone move that stand between its old place and its
// new one.
pub fn reorder(row: &mut [u16], prio: &[u8], count: usize, task: u16, key: u8)
    requires holds_row { HoldsRow count row.old }
    requires prio_len { length prio.now ≡ task_places }
    requires reorderable { Reorderable prio.now task (take count row.old) }
    ensures { row.new ≡ padded (queued key (λ u. get_or prio.now u 0) task (delete task (take count row.old))) }
{
    let at = position(row, task);
    let to = rank(&row[..at], prio, key);
    if to < at {
        shift_up(row, to, at);
        row[to] = task;
        return;
    }
    let next = at + 1;
    let behind = rank(&row[next..count], prio, key);
    shift_down(row, at, next + behind);
    row[at + behind] = task;
}

// The key by which a task of this priority enters: in front of its equals or behind them.
pub fn entry_key(front: bool, priority: u8) -> u8
    requires { priority ≤ highest_priority }
    ensures { result ≡ entry_key front priority }
{
    if front {
        return priority + 1;
    }
    priority
}

// The places from at + 1 to count - 1 move down by one, and the last of them holds nothing. Here and in `shift_up` the places move in a
// loop, which the compiler makes 16 bytes at a time: `copy_within` becomes a call of `memmove`, which takes longer where rows are short.
fn shift_down(row: &mut [u16], at: usize, count: usize)
    requires at_lt_count { at < count }
    requires count_in_bounds { count ≤ length row.old }
    ensures { Closed at count row.old row.new }
{
    for i in at + 1..count {
        row[i - 1] = row[i];
    }
    row[count - 1] = NOTHING;
}

// The places from `at` to count - 1 move up by one.
fn shift_up(row: &mut [u16], at: usize, count: usize)
    requires at_le_count { at ≤ count }
    requires count_in_bounds { count < length row.old }
    ensures { Opened at count row.old row.new }
{
    for i in (at..count).rev() {
        row[i + 1] = row[i];
    }
}
