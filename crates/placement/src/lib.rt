// A task enters a run queue, and its CPU's level follows at once: the tables of rows and the CPU-priority record change together.
// Where more than one row changes, each CPU's level follows when they have.
#![tactic(auto)]

ghost use Rattle.std.specs.Prelude.{◌≡◌, ℕ, ◌*◌, ◌≤◌, ◌<◌, length, get_or, set};
ghost use Rattle.levels.specs.Record.{lent_record};
ghost use Rattle.cpupri.specs.Record.{record_of, Whole};
ghost use Rattle.cpupri.specs.Level.{level_of};
ghost use Rattle.rules.specs.Lists.{In};
ghost use Rattle.rules.specs.Machine.{Machine, task_places, highest_priority, level, row_level, enqueue};
ghost use Rattle.runqueue.specs.Table.{HoldsRows, row_at};
ghost use Rattle.placement.specs.Held.{Held, Entering, Following};

use cpupri::lent::set_level;
use cpupri::level::Level;
use cpupri::record::{CPUS, LEVELS, WORDS};

// The CPU's level follows its row: it is that of the first task or, with an empty row, the ordinary-work flag. One that stays
// the same is not written.
pub fn follow(
    rows: &[u16],
    counts: &[u16],
    prio: &[u8],
    flags: &[u8],
    masks: &mut [u64; LEVELS],
    tallies: &mut [u8; LEVELS],
    words: &mut [u64; WORDS],
    levels: &mut [u8; CPUS],
    cpu: usize,
)
    requires following { (m : Machine) × Following m prio.now flags.now counts.now rows.now cpu }
    requires whole { let r = lent_record masks.old tallies.old words.old levels.old in
        (Whole r) }
    ensures { let r = lent_record masks.old tallies.old words.old levels.old in
        let q = lent_record masks.new tallies.new words.new levels.new in
        ((m : Machine) → Following m prio.now flags.now counts.now rows.now cpu
        → q ≡ record_of (set r.levels cpu (level m cpu))) }
{
    let level = cpu_level(rows, counts, prio, flags, cpu);
    if level.number == levels[cpu] {
        return;
    }
    set_level(masks, tallies, words, levels, cpu, level);
}

// The task enters the row of a CPU behind its equals, and that is then its CPU.
pub fn enter(
    rows: &mut [u16],
    counts: &mut [u16],
    prio: &[u8],
    cpus: &mut [u8],
    masks: &mut [u64; LEVELS],
    tallies: &mut [u8; LEVELS],
    words: &mut [u64; WORDS],
    levels: &mut [u8; CPUS],
    cpu: usize,
    task: u16,
)
    requires entering { let r = lent_record masks.old tallies.old words.old levels.old in
        ((m : Machine) × Entering m prio.now counts.old rows.old r task cpu) }
    requires cpus_len { length cpus.old ≡ task_places }
    ensures held { let r = lent_record masks.old tallies.old words.old levels.old in
        let q = lent_record masks.new tallies.new words.new levels.new in
        ((m : Machine) → Entering m prio.now counts.old rows.old r task cpu
        → Held (enqueue task cpu m) prio.now counts.new rows.new q) }
    ensures cpus_set { cpus.new ≡ set cpus.old task cpu }
{
    runqueue::table::enqueue(rows, counts, prio, cpu, task, false);
    cpus[task as usize] = cpu as u8;
    let level = first_level(rows, prio, cpu);
    set_level(masks, tallies, words, levels, cpu, level);
}

// The level of a CPU: that of the task it runs or, with an empty row, its ordinary-work flag.
pub fn cpu_level(rows: &[u16], counts: &[u16], prio: &[u8], flags: &[u8], cpu: usize) -> Level
    requires holds_rows { HoldsRows counts.now rows.now }
    requires cpu_has_row { cpu < length counts.now }
    requires cpu_has_flag { cpu < length flags.now }
    requires prio_len { length prio.now ≡ task_places }
    requires tasks { (u : ℕ) → In u (row_at counts.now rows.now cpu) → (u < task_places) × (get_or prio.now u 0 ≤ highest_priority) }
    requires flag_bound { get_or flags.now cpu 0 ≤ 1 }
    ensures { result.number ≡ row_level (λ u. get_or prio.now u 0) (get_or flags.now cpu 0) (row_at counts.now rows.now cpu) }
{
    if counts[cpu] == 0 {
        return Level::of_flag(flags[cpu]);
    }
    first_level(rows, prio, cpu)
}

// The level of a CPU that runs a task.
fn first_level(rows: &[u16], prio: &[u8], cpu: usize) -> Level
    requires cpu_has_row { cpu * task_places < length rows.now }
    requires prio_len { length prio.now ≡ task_places }
    requires first_is_task { get_or rows.now (cpu * task_places) 0 < task_places }
    requires first_priority { get_or prio.now (get_or rows.now (cpu * task_places) 0) 0 ≤ highest_priority }
    ensures { result.number ≡ level_of (get_or prio.now (get_or rows.now (cpu * task_places) 0) 0) }
{
    let first = rows[cpu * runqueue::row::PLACES] as usize;
    Level::of_priority(prio[first])
}
