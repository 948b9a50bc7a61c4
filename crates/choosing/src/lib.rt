// The step that applies: of a given task, and where few can move.
#![tactic(auto)]

ghost use Rattle.std.specs.Prelude.{◌≡◌, IfSome, ◌≤◌, ◌<◌, length, get_or};
ghost use Rattle.std.proofs.Math.Option.{some};
ghost use Rattle.laws.specs.Limited.{Limited};
ghost use Rattle.rules.specs.Machine.{Machine, task_places, highest_priority};
ghost use Rattle.rules.specs.Migration.{next};
ghost use Rattle.cpupri.specs.Found.{Marked};
ghost use Rattle.hinting.specs.Hinted.{Among, Hinted, ruled};
ghost use Rattle.choosing.specs.Choosing.{Choosing, Watching, Leads, as_move, mover_of, step_if};

use cpupri::find::lowest_level;
use cpupri::level::Level;
use cpupri::record::{CPUS, LEVELS, WORDS};
use hinting::hint::Candidates;
use movelog::Step;
use mover::pick::{Above, pick, who_above};
use waiting::scan::Test;

// A hint that says more, where nothing is known: nobody can move who is not above the lowest level of any CPU, so if at most one who waits
// is, that task is the only candidate.
pub fn sharpen(
    hint: Option<Candidates>,
    n: usize,
    prio: &[u8],
    rows: &[u16],
    counts: &[u16],
    masks: &[u64; LEVELS],
    words: &[u64; WORDS],
) -> Option<Candidates>
    requires { (m : Machine) × Watching m n prio.now counts.now rows.now masks.now words.now }
    ensures { (m : Machine) → Watching m n prio.now counts.now rows.now masks.now words.now
        → Hinted m hint → Hinted m result }
{
    if hint.is_some() {
        return hint;
    }
    let Some(lowest) = lowest_level(masks, words, LEVELS, u64::MAX) else {
        return Some(Candidates::NOBODY);
    };
    match who_above(lowest as u8, n, prio, rows, counts) {
        Above::Nobody => Some(Candidates::NOBODY),
        Above::One(task) => Some(Candidates {
            fallen: None,
            new: Some(task),
        }),
        Above::Several => None,
    }
}

// The step that applies on a machine of n CPUs, where few can move, if one does.
pub fn choose(
    few: Candidates,
    n: usize,
    prio: &[u8],
    cpu: &[u8],
    mask: &[u64],
    rows: &[u16],
    counts: &[u16],
    masks: &[u64; LEVELS],
    words: &[u64; WORDS],
    levels: &[u8; CPUS],
) -> Option<Step>
    requires { (m : Machine) × (Choosing m n prio.now cpu.now mask.now counts.now rows.now masks.now words.now levels.now
        × Among m few) }
    ensures { (m : Machine) → Choosing m n prio.now cpu.now mask.now counts.now rows.now masks.now words.now levels.now
        → Among m few → as_move result ≡ next m }
{
    let task = foremost(few, n, prio, cpu, mask, rows, counts, masks, words, levels);
    step_of(task, prio, cpu, mask, masks, words)
}

// The mover; if there is none, none or the one task that could have been it.
fn foremost(
    few: Candidates,
    n: usize,
    prio: &[u8],
    cpu: &[u8],
    mask: &[u64],
    rows: &[u16],
    counts: &[u16],
    masks: &[u64; LEVELS],
    words: &[u64; WORDS],
    levels: &[u8; CPUS],
) -> Option<u16>
    requires { (m : Machine) × (Choosing m n prio.now cpu.now mask.now counts.now rows.now masks.now words.now levels.now
        × Among m few) }
    ensures { (m : Machine) → Choosing m n prio.now cpu.now mask.now counts.now rows.now masks.now words.now levels.now
        → Among m few → Leads m masks.now prio.now cpu.now mask.now result }
{
    let Some(fallen) = few.fallen else {
        return few.new;
    };
    draw(
        fallen, few.new, n, prio, cpu, mask, rows, counts, masks, words, levels,
    )
}

// The same where the CPU `fallen` fell: the foremost of those that may use it and are above its level, and of the new task if that is movable.
fn draw(
    fallen: usize,
    new: Option<u16>,
    n: usize,
    prio: &[u8],
    cpu: &[u8],
    mask: &[u64],
    rows: &[u16],
    counts: &[u16],
    masks: &[u64; LEVELS],
    words: &[u64; WORDS],
    levels: &[u8; CPUS],
) -> Option<u16>
    requires { (m : Machine) × (Choosing m n prio.now cpu.now mask.now counts.now rows.now masks.now words.now levels.now
        × Limited m (some fallen) (ruled new)) }
    ensures { (m : Machine) → Choosing m n prio.now cpu.now mask.now counts.now rows.now masks.now words.now levels.now
        → Limited m (some fallen) (ruled new) → Leads m masks.now prio.now cpu.now mask.now result }
{
    let movable = if_movable(new, prio, cpu, mask, masks, words);
    let test = Test::Drawn {
        cpu: fallen,
        level: levels[fallen],
        new: movable,
    };
    // no level's CPUs are asked for by this test
    let mover = pick(test, n, prio, mask, rows, counts, masks)?;
    Some(mover.task)
}

// The new task, if it is movable.
fn if_movable(
    new: Option<u16>,
    prio: &[u8],
    cpu: &[u8],
    mask: &[u64],
    masks: &[u64; LEVELS],
    words: &[u64; WORDS],
) -> Option<u16>
    requires prio_len { length prio.now ≡ task_places }
    requires cpu_len { length cpu.now ≡ task_places }
    requires mask_len { length mask.now ≡ task_places }
    requires task { IfSome new (λ t. (t < task_places) × (get_or prio.now t 0 ≤ highest_priority)) }
    requires marked { Marked masks.now words.now }
    ensures { ruled result ≡ mover_of (step_if masks.now prio.now cpu.now mask.now new) }
{
    let step = step_of(new, prio, cpu, mask, masks, words)?;
    Some(step.task)
}

// The step of the task to one of its allowed CPUs of the lowest level, among equals the lowest-numbered; none if
// the task is not movable, or there is none.
pub fn step_of(
    task: Option<u16>,
    prio: &[u8],
    cpu: &[u8],
    mask: &[u64],
    masks: &[u64; LEVELS],
    words: &[u64; WORDS],
) -> Option<Step>
    requires prio_len { length prio.now ≡ task_places }
    requires cpu_len { length cpu.now ≡ task_places }
    requires mask_len { length mask.now ≡ task_places }
    requires task { IfSome task (λ t. (t < task_places) × (get_or prio.now t 0 ≤ highest_priority)) }
    requires marked { Marked masks.now words.now }
    ensures { as_move result ≡ step_if masks.now prio.now cpu.now mask.now task }
{
    let task = task?;
    let at = task as usize;
    let below = Level::of_priority(prio[at]).number as usize;
    let allowed = mask[at];
    let level = lowest_level(masks, words, below, allowed)?;
    Some(Step {
        task,
        origin: cpu[at] as usize,
        target: bits::lowest_bit(masks[level] & allowed) as usize,
        displaced: level as u8,
    })
}
