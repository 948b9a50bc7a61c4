// What is read of the task that an event is about before the event's own effect, on a settled machine, and who can move after it.
ghost use Rattle.std.specs.Prelude.{◌≡◌, ◌<◌};
ghost use Rattle.rules.specs.Machine.{Machine, row, task_places, levels as levels_of};
ghost use Rattle.hinting.specs.Past.{Reading, Standing, Able, past_of, past_of_row, past_by, new_since, candidates_since};
ghost use Rattle.hinting.specs.Hinted.{coded};

use super::hint::Candidates;
use cpupri::record::CPUS;
use plans::plan::Decision;
use rules::task::RUNNABLE;
use runqueue::row::{PLACES, task_in};

// What was so before the effect.
#[derive(Clone, Copy)]
pub enum Past {
    // no task is touched
    Untouched,
    // the task that is touched, its CPU, that CPU's level, and whether the task ran there
    Task {
        task: u16,
        cpu: usize,
        level: u8,
        ran: bool,
    },
    // this CPU comes back
    Back {
        cpu: usize,
    },
}

pub fn remember(decision: Decision, cpu: &[u8], rows: &[u16], levels: &[u8; CPUS]) -> Past
    requires { (m : Machine) × (Reading m cpu.now rows.now levels.now × Able m decision) }
    ensures { (m : Machine) → Reading m cpu.now rows.now levels.now → result ≡ past_by m decision }
{
    match decision {
        Decision::Place(plan) => standing(plan.task, cpu, rows, levels),
        Decision::Flag { cpu: _, work: _ } => Past::Untouched,
        Decision::Nothing => Past::Untouched,
        Decision::Offline { cpu: at } => runner(at, cpu, rows, levels),
        Decision::Online { cpu: at } => Past::Back { cpu: at },
    }
}

// Where the task stands that runs on a CPU which goes: of those that leave it no other can find a lower CPU.
fn runner(at: usize, cpu: &[u8], rows: &[u16], levels: &[u8; CPUS]) -> Past
    requires { (m : Machine) × (Reading m cpu.now rows.now levels.now × (at < m.n)) }
    ensures { (m : Machine) → Reading m cpu.now rows.now levels.now → result ≡ past_of_row m (row m at) }
{
    let Some(first) = task_in(rows[at * PLACES]) else {
        return Past::Untouched;
    };
    standing(first, cpu, rows, levels)
}

// Where a task stands.
pub fn standing(task: u16, cpu: &[u8], rows: &[u16], levels: &[u8; CPUS]) -> Past
    requires task_lt_task_places { task < task_places }
    requires reading { (m : Machine) × Reading m cpu.now rows.now levels.now }
    ensures { (m : Machine) → Reading m cpu.now rows.now levels.now → result ≡ past_of m task }
{
    let at = cpu[task as usize] as usize;
    Past::Task {
        task,
        cpu: at,
        level: levels[at],
        ran: rows[at * PLACES] == task,
    }
}

// Who can move after the effect.
pub fn since(past: Past, state: &[u8], cpu: &[u8], rows: &[u16], levels: &[u8; CPUS]) -> Candidates
    requires { (m : Machine) × (Reading m cpu.now rows.now levels.now × (state.now ≡ m.state) × Standing m past) }
    ensures { (m : Machine) → Reading m cpu.now rows.now levels.now → state.now ≡ m.state → Standing m past
        → result ≡ candidates_since past m }
{
    match past {
        Past::Untouched => Candidates::NOBODY,
        Past::Back { cpu: at } => Candidates {
            fallen: Some(at),
            new: None,
        },
        Past::Task {
            task,
            cpu: at,
            level,
            ran,
        } => {
            let fell = ran & (levels[at] < level);
            Candidates {
                fallen: fell.then_some(at),
                new: new_task(task, at, ran, state, cpu, rows),
            }
        }
    }
}

// The task if it waits; if it runs, and did not run there before, the task behind it, which it displaced.
pub fn new_task(
    task: u16,
    at: usize,
    ran: bool,
    state: &[u8],
    cpu: &[u8],
    rows: &[u16],
) -> Option<u16>
    requires task_lt_task_places { task < task_places }
    requires reading { (m : Machine) × (Reading m cpu.now rows.now (levels_of m) × (state.now ≡ m.state)) }
    ensures { (m : Machine) → Reading m cpu.now rows.now (levels_of m) → state.now ≡ m.state → result ≡ coded (new_since task at ran m) }
{
    let own = task as usize;
    if state[own] != RUNNABLE {
        return None;
    }
    let now = cpu[own] as usize;
    let start = now * PLACES;
    if rows[start] != task {
        return Some(task);
    }
    if ran & (at == now) {
        return None;
    }
    task_in(rows[start + 1])
}
