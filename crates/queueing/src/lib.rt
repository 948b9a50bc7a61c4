// The task of a plan, whose columns are written, goes where the plan says: out of a row, into one, or both. The levels of these rows' CPUs
// follow. Each says who can move then, if nobody could before.
#![tactic(auto)]

ghost use Rattle.std.specs.Prelude.{◌≡◌, false, ◌≢◌};
ghost use Rattle.levels.specs.Record.{lent_record};
ghost use Rattle.rules.specs.Machine.{Machine, Task, runnable};
ghost use Rattle.rules.specs.Plan.{enter as entering, leave as leaving, shift as shifting, reorder as reordering, rewrite as rewriting};
ghost use Rattle.queueing.specs.Moved.{Moving, Running, Moved};

use cpupri::record::{CPUS, LEVELS, WORDS};
use hinting::hint::Candidates;
use hinting::past::{since, standing};
use placement::follow;
use runqueue::row::{PLACES, task_in};
use runqueue::table;

// Into the row of `target`, behind its equals. It stood in none, so no CPU falls; who waits newly is the task, or whom it displaced.
pub fn enter(
    state: &[u8],
    prio: &[u8],
    cpu: &mut [u8],
    rows: &mut [u16],
    counts: &mut [u16],
    flags: &[u8],
    masks: &mut [u64; LEVELS],
    tallies: &mut [u8; LEVELS],
    words: &mut [u64; WORDS],
    levels: &mut [u8; CPUS],
    task: u16,
    target: usize,
) -> Candidates
    requires { let r = lent_record masks.old tallies.old words.old levels.old in
        ((m : Machine) × ((τ : Task) × (Moving m (entering task τ target) state.now prio.now cpu.old
        rows.old counts.old flags.now r × (τ.state ≡ runnable)))) }
    ensures { let r = lent_record masks.old tallies.old words.old levels.old in
        let q = lent_record masks.new tallies.new words.new levels.new in
        ((m : Machine) (τ : Task) → let p = entering task τ target in
        Moving m p state.now prio.now cpu.old rows.old counts.old flags.now r → τ.state ≡ runnable
        → Moved result m p cpu.new rows.new counts.new q) }
{
    parts::enter(rows, counts, prio, cpu, target, task, false);
    if rows[target * PLACES] != task {
        return Candidates {
            fallen: None,
            new: Some(task), // it waits, and the level stays
        };
    }
    follow(
        rows, counts, prio, flags, masks, tallies, words, levels, target,
    );
    Candidates {
        fallen: None,
        new: task_in(rows[target * PLACES + 1]),
    }
}

// Out of the row of `origin`, and it is no longer runnable: nobody waits newly.
pub fn leave(
    state: &[u8],
    prio: &[u8],
    cpu: &[u8],
    rows: &mut [u16],
    counts: &mut [u16],
    flags: &[u8],
    masks: &mut [u64; LEVELS],
    tallies: &mut [u8; LEVELS],
    words: &mut [u64; WORDS],
    levels: &mut [u8; CPUS],
    task: u16,
    origin: usize,
) -> Candidates
    requires { let r = lent_record masks.old tallies.old words.old levels.old in
        ((m : Machine) × ((τ : Task) × (Moving m (leaving task origin τ) state.now prio.now cpu.now
        rows.old counts.old flags.now r × (τ.state ≢ runnable)))) }
    ensures { let r = lent_record masks.old tallies.old words.old levels.old in
        let q = lent_record masks.new tallies.new words.new levels.new in
        ((m : Machine) (τ : Task) → let p = leaving task origin τ in
        Moving m p state.now prio.now cpu.now rows.old counts.old flags.now r → τ.state ≢ runnable
        → Moved result m p cpu.now rows.new counts.new q) }
{
    let ran = rows[origin * PLACES] == task;
    parts::leave(rows, counts, origin, task);
    if !ran {
        return Candidates::NOBODY; // the level stays
    }
    let level = levels[origin];
    follow(
        rows, counts, prio, flags, masks, tallies, words, levels, origin,
    );
    let fell = levels[origin] < level;
    Candidates {
        fallen: fell.then_some(origin),
        new: None,
    }
}

// Behind its equals in the row of `home`, where it runs and keeps its priority: the level stays.
pub fn requeue(
    state: &[u8],
    prio: &[u8],
    cpu: &[u8],
    rows: &mut [u16],
    counts: &[u16],
    flags: &[u8],
    masks: &[u64; LEVELS],
    tallies: &[u8; LEVELS],
    words: &[u64; WORDS],
    levels: &[u8; CPUS],
    task: u16,
    home: usize,
) -> Candidates
    requires { let r = lent_record masks.now tallies.now words.now levels.now in
        ((m : Machine) × ((τ : Task) × (Moving m (reordering false task home τ) state.now prio.now cpu.now
        rows.old counts.now flags.now r × Running m task home τ))) }
    ensures { let r = lent_record masks.now tallies.now words.now levels.now in
        ((m : Machine) (τ : Task) → let p = reordering false task home τ in
        Moving m p state.now prio.now cpu.now rows.old counts.now flags.now r → Running m task home τ
        → Moved result m p cpu.now rows.new counts.now r) }
{
    table::reorder(rows, counts, prio, home, task, false);
    if rows[home * PLACES] == task {
        return Candidates::NOBODY; // it runs still
    }
    Candidates {
        fallen: None,
        new: Some(task), // it waits
    }
}

// To another place in the row of `home`, in front of its equals or behind them.
pub fn reorder(
    state: &[u8],
    prio: &[u8],
    cpu: &[u8],
    rows: &mut [u16],
    counts: &[u16],
    flags: &[u8],
    masks: &mut [u64; LEVELS],
    tallies: &mut [u8; LEVELS],
    words: &mut [u64; WORDS],
    levels: &mut [u8; CPUS],
    task: u16,
    home: usize,
    front: bool,
) -> Candidates
    requires { let r = lent_record masks.old tallies.old words.old levels.old in
        ((m : Machine) × ((τ : Task) × Moving m (reordering front task home τ) state.now prio.now cpu.now
        rows.old counts.now flags.now r)) }
    ensures { let r = lent_record masks.old tallies.old words.old levels.old in
        let q = lent_record masks.new tallies.new words.new levels.new in
        ((m : Machine) (τ : Task) → let p = reordering front task home τ in
        Moving m p state.now prio.now cpu.now rows.old counts.now flags.now r
        → Moved result m p cpu.now rows.new counts.now q) }
{
    let past = standing(task, cpu, rows, levels);
    table::reorder(rows, counts, prio, home, task, front);
    follow(
        rows, counts, prio, flags, masks, tallies, words, levels, home,
    );
    since(past, state, cpu, rows, levels)
}

// From the row of `origin` to that of `target`, behind its equals.
pub fn shift(
    state: &[u8],
    prio: &[u8],
    cpu: &mut [u8],
    rows: &mut [u16],
    counts: &mut [u16],
    flags: &[u8],
    masks: &mut [u64; LEVELS],
    tallies: &mut [u8; LEVELS],
    words: &mut [u64; WORDS],
    levels: &mut [u8; CPUS],
    task: u16,
    origin: usize,
    target: usize,
) -> Candidates
    requires { let r = lent_record masks.old tallies.old words.old levels.old in
        ((m : Machine) × ((τ : Task) × Moving m (shifting task origin τ target) state.now prio.now cpu.old
        rows.old counts.old flags.now r)) }
    ensures { let r = lent_record masks.old tallies.old words.old levels.old in
        let q = lent_record masks.new tallies.new words.new levels.new in
        ((m : Machine) (τ : Task) → let p = shifting task origin τ target in
        Moving m p state.now prio.now cpu.old rows.old counts.old flags.now r
        → Moved result m p cpu.new rows.new counts.new q) }
{
    let past = standing(task, cpu, rows, levels);
    parts::leave(rows, counts, origin, task);
    parts::enter(rows, counts, prio, cpu, target, task, false);
    follow(
        rows, counts, prio, flags, masks, tallies, words, levels, origin,
    );
    follow(
        rows, counts, prio, flags, masks, tallies, words, levels, target,
    );
    since(past, state, cpu, rows, levels)
}

// Nowhere: it stays where it is.
pub fn stay(
    state: &[u8],
    prio: &[u8],
    cpu: &[u8],
    rows: &[u16],
    counts: &[u16],
    flags: &[u8],
    masks: &[u64; LEVELS],
    tallies: &[u8; LEVELS],
    words: &[u64; WORDS],
    levels: &[u8; CPUS],
    task: u16,
) -> Candidates
    requires { let r = lent_record masks.now tallies.now words.now levels.now in
        ((m : Machine) × ((τ : Task) × Moving m (rewriting task τ) state.now prio.now cpu.now rows.now counts.now flags.now r)) }
    ensures { let r = lent_record masks.now tallies.now words.now levels.now in
        ((m : Machine) (τ : Task) → let p = rewriting task τ in
        Moving m p state.now prio.now cpu.now rows.now counts.now flags.now r
        → Moved result m p cpu.now rows.now counts.now r) }
{
    let past = standing(task, cpu, rows, levels);
    since(past, state, cpu, rows, levels)
}
