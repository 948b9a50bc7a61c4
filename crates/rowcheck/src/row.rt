// The pass over one row: the places in use, the unused ones, the flag and the level.
ghost use Rattle.std.specs.Prelude.{◌≡◌, true, ℕ, ◌≤◌, ◌<◌, length, get_or};
ghost use Rattle.rules.specs.Machine.{task_places, row_level};
ghost use Rattle.rowcheck.specs.Says.{Says};
ghost use Rattle.rowcheck.specs.Placed.{set_words, Stands, AllStand, Once, Marks, Unused, Row};

use super::marks;
use super::marks::WORDS;
use rules::task::RUNNABLE;
use runqueue::row::{NOTHING, PLACES};

// No priority is above this one.
const TOP: u8 = 255;

// A real-time task's level is its priority and this.
const REAL_TIME: u16 = 2;

// One row: `count` tasks, then unused places. Its tasks join the set. `idle` is the level that the CPU has without a task.
pub fn row_fits(
    c: usize,
    row: &[u16],
    count: u16,
    flag: u8,
    idle: u8,
    level: u8,
    state: &[u8],
    prio: &[u8],
    cpu: &[u8],
    marks: &mut [u64; WORDS],
) -> bool
    requires state_len { (length state.now ≡ task_places) × (length prio.now ≡ task_places) × (length cpu.now ≡ task_places) }
    requires row_len { (length row.now ≡ task_places) × (length marks.old ≡ set_words) }
    ensures says { Says result (Row state.now prio.now cpu.now row.now c count flag idle level × Once marks.old row.now count) }
    ensures marks { result ≡ true → Marks marks.old row.now count marks.new }
{
    let k = count as usize;
    if PLACES < k {
        return false;
    }
    if !tasks_stand(c, row, k, state, prio, cpu, marks) {
        return false;
    }
    unused(row, k) & (flag <= 1) & level_fits(&row[..k], idle, level, prio)
}

// The tasks of a row: each may stand there, and none is in the set yet.
fn tasks_stand(
    c: usize,
    row: &[u16],
    count: usize,
    state: &[u8],
    prio: &[u8],
    cpu: &[u8],
    marks: &mut [u64; WORDS],
) -> bool
    requires state_len { (length state.now ≡ task_places) × (length prio.now ≡ task_places) × (length cpu.now ≡ task_places) }
    requires count_in_bounds { (count ≤ length row.now) × (length marks.old ≡ set_words) }
    ensures says { Says result (AllStand state.now prio.now cpu.now row.now c count × Once marks.old row.now count) }
    ensures marks { result ≡ true → Marks marks.old row.now count marks.new }
{
    let mut bound = TOP;
    for &place in &row[..count] {
        let task = place as usize;
        if !stands(c, task, bound, state, prio, cpu) {
            return false;
        }
        if !marks::add(marks, task) {
            return false;
        }
        bound = prio[task];
    }
    true
}

// Whether a task may stand in the row of CPU c, behind a task of priority `bound`.
fn stands(c: usize, task: usize, bound: u8, state: &[u8], prio: &[u8], cpu: &[u8]) -> bool
    requires { (length state.now ≡ task_places) × (length prio.now ≡ task_places) × (length cpu.now ≡ task_places) }
    ensures { Says result (Stands state.now prio.now cpu.now c bound task) }
{
    if PLACES <= task {
        return false;
    }
    (state[task] == RUNNABLE) & ((cpu[task] as usize) == c) & (prio[task] <= bound)
}

// Whether the places from `count` on hold nothing. It looks at all of them, several at a time, and decides after.
fn unused(row: &[u16], count: usize) -> bool
    requires row_len { length row.now ≡ task_places }
    requires count_le_task_places { count ≤ task_places }
    ensures { Says result (Unused row.now count) }
{
    let mut all = true;
    for &place in &row[count..PLACES] {
        all = all & (place == NOTHING);
    }
    all
}

// Whether a CPU's level is that of the first of its tasks or, if it has none, `idle`.
fn level_fits(tasks: &[u16], idle: u8, level: u8, prio: &[u8]) -> bool
    requires prio_len { length prio.now ≡ task_places }
    requires task_numbers { (i : ℕ) → i < length tasks.now → get_or tasks.now i 0 < task_places }
    ensures { Says result (level ≡ row_level (λ u. get_or prio.now u 0) idle tasks.now) }
{
    if tasks.is_empty() {
        return level == idle;
    }
    let first = tasks[0] as usize;
    // in 16 bits, since a priority may be any byte here
    (level as u16) == (prio[first] as u16) + REAL_TIME
}
