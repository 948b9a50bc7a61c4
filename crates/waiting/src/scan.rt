// The waiting tasks of one row.
ghost use Rattle.std.specs.Prelude.{◌≡◌, ℕ, MatchOption, suc, ◌-◌, ◌≤◌, ◌<◌, eqb, length};
ghost use mathlib.Core.List.{tail};
ghost use Rattle.cpupri.specs.Level.{level_of};
ghost use Rattle.rules.specs.Machine.{task_places, highest_priority};
ghost use Rattle.ranking.specs.Row.{ahead};
ghost use Rattle.waiting.specs.Wanted.{Asked, names, newly, passing, wanted, least as least_of, Searchable};

use cpupri::level::Level;
use cpupri::record::LEVELS;

// Who is looked for among the waiting tasks. (No closure: what a test means, asks and passes is said once for each, in specs/Wanted.antt.)
#[derive(Clone, Copy)]
pub enum Test {
    // who has an allowed CPU below its level, by the CPUs below each level; no CPU is below the level `lowest`
    Movable {
        lowest: u8,
    },
    // who may use the CPU `cpu`, whose level `level` is below its own; and the task `new`
    Drawn {
        cpu: usize,
        level: u8,
        new: Option<u16>,
    },
}

// The place of the first waiting task of a row that is above the priority `floor` and passes the test. Priorities fall along a
// row, so the walk ends at the first task that is not above the floor.
pub fn scan(
    test: Test,
    row: &[u16],
    prio: &[u8],
    mask: &[u64],
    under: &[u64; LEVELS],
    floor: u8,
) -> Option<usize>
    requires asked { Asked test }
    requires searchable { Searchable prio.now mask.now row.now }
    ensures { let end = suc (ahead (wanted test under.now prio.now mask.now floor) (tail row.now)) in
        MatchOption result (length row.now ≡ end) (λ at. (at < length row.now) × (at ≡ end)) }
{
    let count = row.len();
    let new = new_of(test); // once, and not in each turn
    for at in 1..count {
        let task = row[at];
        let place = task as usize;
        let priority = prio[place];
        if priority <= floor {
            return None;
        }
        if passes(test, new, under, task, priority, mask[place]) {
            return Some(at);
        }
    }
    None
}

// The task that passes whatever CPUs it may use; a number that no task has, if there is none.
fn new_of(test: Test) -> u16
    ensures { (u : ℕ) → u < task_places → eqb result u ≡ names (newly test) u }
{
    match test {
        Test::Drawn {
            cpu: _,
            level: _,
            new: Some(task),
        } => task,
        _ => u16::MAX,
    }
}

// Whether a task of this priority and mask passes the test, of which `new` is the new task.
fn passes(test: Test, new: u16, under: &[u64; LEVELS], task: u16, priority: u8, mask: u64) -> bool
    requires asked { Asked test }
    requires new_is { eqb new task ≡ names (newly test) task }
    requires priority_le_highest_priority { priority ≤ highest_priority }
    ensures { result ≡ passing test under.now task priority mask }
{
    let own = Level::of_priority(priority).number;
    match test {
        Test::Movable { lowest: _ } => under[own as usize] & mask != 0,
        Test::Drawn { cpu, level, new: _ } => (new == task)
            | (bits::test_bit(mask, cpu) & (level < own)),
    }
}

// A priority that is below that of every task which passes the test. Priority p is at level p + 2.
pub fn least(test: Test) -> u8
    ensures { result ≡ least_of test }
{
    match test {
        Test::Movable { lowest } => priority_at(lowest),
        Test::Drawn {
            cpu: _,
            level,
            new: None,
        } => priority_at(level),
        Test::Drawn {
            cpu: _,
            level: _,
            new: Some(_),
        } => 0,
    }
}

// The priority that is at this level; 0 if none is.
fn priority_at(level: u8) -> u8
    ensures { result ≡ level - level_of 0 }
{
    if 2 < level {
        return level - 2;
    }
    0
}
