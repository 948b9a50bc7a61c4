// The foremost of the waiting tasks that pass a test: that of highest priority, among equals the one on the
// lowest-numbered CPU, and among those the earliest in its row.
ghost use Rattle.std.specs.Prelude.{◌≡◌, false, suc, ◌≤◌, ◌<◌, get_or};
ghost use Rattle.rules.specs.Machine.{Machine};
ghost use Rattle.waiting.specs.Waiting.{FirstWaiting};
ghost use Rattle.waiting.specs.Wanted.{Asked, Told, meant};
ghost use Rattle.mover.specs.Foremost.{Looking, BestOf, HigherIn, OnlyAbove, FirstAlone};

use cpupri::level::Level;
use cpupri::record::LEVELS;
use runqueue::row::PLACES;
use waiting::cpus::{first_waiting, next_waiting};
use waiting::scan::{Test, least, scan};

// A candidate, the CPU it waits on and its priority.
#[derive(Clone, Copy)]
pub struct Mover {
    pub task: u16,
    pub origin: usize,
    pub priority: u8,
}

// Of a machine of n CPUs. `under` has the CPUs below each level; it is read for a test of `Movable` only.
pub fn pick(
    test: Test,
    n: usize,
    prio: &[u8],
    mask: &[u64],
    rows: &[u16],
    counts: &[u16],
    under: &[u64; LEVELS],
) -> Option<Mover>
    requires asked { Asked test }
    requires looking { (m : Machine) × (Looking m prio.now mask.now counts.now rows.now × (n ≡ m.n)) }
    ensures { (m : Machine) → Looking m prio.now mask.now counts.now rows.now → Told m test under.now → n ≡ m.n
        → BestOf (meant m test) m n result }
{
    let first = first_waiting(counts, n)?;
    pick_from(first, test, n, prio, mask, rows, counts, under)
}

// The same where `first` is the first CPU on which a task waits. A row is left at the first task that cannot beat the best so far. (Code of its
// own: within a replay's the walk along a row had too few registers.)
#[inline(never)]
fn pick_from(
    first: usize,
    test: Test,
    n: usize,
    prio: &[u8],
    mask: &[u64],
    rows: &[u16],
    counts: &[u16],
    under: &[u64; LEVELS],
) -> Option<Mover>
    requires first { FirstWaiting counts.now 0 n first }
    requires asked { Asked test }
    requires looking { (m : Machine) × (Looking m prio.now mask.now counts.now rows.now × (n ≡ m.n)) }
    ensures { (m : Machine) → Looking m prio.now mask.now counts.now rows.now → Told m test under.now → n ≡ m.n
        → BestOf (meant m test) m n result }
{
    let mut best = None;
    let mut floor = least(test);
    let mut next = Some(first);
    while let Some(cpu) = next {
        if let Some(higher) = higher(test, floor, cpu, prio, mask, rows, counts, under) {
            floor = higher.priority;
            best = Some(higher);
        }
        next = next_waiting(counts, cpu + 1, n);
    }
    best
}

// Who waits above a level.
#[derive(Clone, Copy)]
pub enum Above {
    Nobody,
    One(u16),
    // or it was not asked further
    Several,
}

// Of a machine of n CPUs. It ends as soon as several may be.
pub fn who_above(level: u8, n: usize, prio: &[u8], rows: &[u16], counts: &[u16]) -> Above
    requires { (m : Machine) × (Looking m prio.now m.mask counts.now rows.now × (n ≡ m.n)) }
    ensures { (m : Machine) → Looking m prio.now m.mask counts.now rows.now → n ≡ m.n → OnlyAbove m level n result }
{
    let mut found = Above::Nobody;
    let mut next = first_waiting(counts, n);
    while let Some(cpu) = next {
        found = who_above_with(level, found, cpu, prio, rows, counts);
        if let Above::Several = found {
            return Above::Several;
        }
        next = next_waiting(counts, cpu + 1, n);
    }
    found
}

// The same with one CPU more, on which a task waits: the first that waits there is the highest.
fn who_above_with(
    level: u8,
    found: Above,
    cpu: usize,
    prio: &[u8],
    rows: &[u16],
    counts: &[u16],
) -> Above
    requires { (m : Machine) × (Looking m prio.now m.mask counts.now rows.now × (cpu < m.n) × (2 ≤ get_or counts.now cpu 0)) }
    ensures { (m : Machine) → Looking m prio.now m.mask counts.now rows.now → cpu < m.n → OnlyAbove m level cpu found
        → OnlyAbove m level (suc cpu) result }
{
    let first = rows[cpu * PLACES + 1];
    if Level::of_priority(prio[first as usize]).number <= level {
        return found;
    }
    match found {
        Above::Nobody if !second_above(level, cpu, prio, rows, counts) => Above::One(first),
        _ => Above::Several,
    }
}

// Whether a second task waits above the level on a CPU on which one waits: who stands behind it is not higher.
fn second_above(level: u8, cpu: usize, prio: &[u8], rows: &[u16], counts: &[u16]) -> bool
    requires { (m : Machine) × (Looking m prio.now m.mask counts.now rows.now × (cpu < m.n) × (2 ≤ get_or counts.now cpu 0)) }
    ensures { (m : Machine) → Looking m prio.now m.mask counts.now rows.now → cpu < m.n → result ≡ false
        → FirstAlone m level cpu }
{
    if counts[cpu] == 2 {
        return false;
    }
    let second = rows[cpu * PLACES + 2];
    level < Level::of_priority(prio[second as usize]).number
}

// The foremost of those on one CPU that are above the priority `floor`.
fn higher(
    test: Test,
    floor: u8,
    cpu: usize,
    prio: &[u8],
    mask: &[u64],
    rows: &[u16],
    counts: &[u16],
    under: &[u64; LEVELS],
) -> Option<Mover>
    requires asked { Asked test }
    requires looking { (m : Machine) × (Looking m prio.now mask.now counts.now rows.now
        × (cpu < m.n) × (2 ≤ get_or counts.now cpu 0)) }
    ensures { (m : Machine) → Looking m prio.now mask.now counts.now rows.now → Told m test under.now
        → cpu < m.n → HigherIn (meant m test) m cpu floor result }
{
    let start = cpu * PLACES;
    let first = rows[start + 1]; // the highest that waits there
    if prio[first as usize] <= floor {
        return None;
    }
    let count = counts[cpu] as usize;
    let at = scan(test, &rows[start..start + count], prio, mask, under, floor)?;
    let task = rows[start + at];
    Some(Mover {
        task,
        origin: cpu,
        priority: prio[task as usize],
    })
}
