// Steps until none applies, each with an entry in the move log.
ghost use Rattle.std.specs.Prelude.{◌≡◌, length, set};
ghost use Rattle.levels.specs.Record.{lent_record};
ghost use Rattle.rules.specs.Machine.{Machine, task_places};
ghost use Rattle.rules.specs.Migration.{next, migrate, settle_all};
ghost use Rattle.rules.specs.Tables.{log_places};
ghost use Rattle.placement.specs.Held.{Held};
ghost use Rattle.hinting.specs.Hinted.{Hinted, Among};
ghost use Rattle.movelog.specs.Entry.{move_by};
ghost use Rattle.waiting.specs.Wanted.{Told};
ghost use Rattle.waiting.specs.declared.scan.Test.TheVariants.{Movable};
ghost use Rattle.choosing.specs.Choosing.{Choosing, as_move};
ghost use Rattle.migration.specs.Settling.{Settling, Stepping, Ended};

use choosing::{choose, sharpen, step_of};
use cpupri::find::lowest_level;
use cpupri::record::{CPUS, LEVELS, WORDS};
use hinting::hint::{Candidates, after, nobody};
use movelog::{Step, note};
use mover::pick::pick;
use under::{fill, rise};
use waiting::scan::Test;

// Takes the steps of a machine of n CPUs, of which the hint is true, and says how many there were. There are at most n - 1, so the
// log has room.
pub fn settle(
    hint: Option<Candidates>,
    n: usize,
    prio: &[u8],
    cpu: &mut [u8],
    mask: &[u64],
    rows: &mut [u16],
    counts: &mut [u16],
    log: &mut [u16],
    masks: &mut [u64; LEVELS],
    tallies: &mut [u8; LEVELS],
    words: &mut [u64; WORDS],
    levels: &mut [u8; CPUS],
) -> usize
    requires settling { let r = lent_record masks.old tallies.old words.old levels.old in
        ((m : Machine) × (Settling m prio.now cpu.old mask.now counts.old rows.old r
        × (n ≡ m.n) × Hinted m hint)) }
    requires log_len { length log.old ≡ log_places }
    ensures { let r = lent_record masks.old tallies.old words.old levels.old in
        let q = lent_record masks.new tallies.new words.new levels.new in
        ((m : Machine) → Settling m prio.now cpu.old mask.now counts.old rows.old r → n ≡ m.n → Hinted m hint
        → Ended (settle_all m) prio.now cpu.new counts.new rows.new log.old log.new result q) }
{
    match sharpen(hint, n, prio, rows, counts, masks, words) {
        Some(few) => follow(
            few, n, prio, cpu, mask, rows, counts, log, masks, tallies, words, levels,
        ),
        None => search(
            n, prio, cpu, mask, rows, counts, log, masks, tallies, words, levels,
        ),
    }
}

// The steps where few can move: after each, who can is known again.
fn follow(
    few: Candidates,
    n: usize,
    prio: &[u8],
    cpu: &mut [u8],
    mask: &[u64],
    rows: &mut [u16],
    counts: &mut [u16],
    log: &mut [u16],
    masks: &mut [u64; LEVELS],
    tallies: &mut [u8; LEVELS],
    words: &mut [u64; WORDS],
    levels: &mut [u8; CPUS],
) -> usize
    requires settling { let r = lent_record masks.old tallies.old words.old levels.old in
        ((m : Machine) × (Settling m prio.now cpu.old mask.now counts.old rows.old r
        × (n ≡ m.n) × Among m few)) }
    requires log_len { length log.old ≡ log_places }
    ensures { let r = lent_record masks.old tallies.old words.old levels.old in
        let q = lent_record masks.new tallies.new words.new levels.new in
        ((m : Machine) → Settling m prio.now cpu.old mask.now counts.old rows.old r → n ≡ m.n → Among m few
        → Ended (settle_all m) prio.now cpu.new counts.new rows.new log.old log.new result q) }
{
    if nobody(few) {
        return 0;
    }
    let mut moves = 0;
    let mut known = few;
    while let Some(step) = choose(
        known, n, prio, cpu, mask, rows, counts, masks, words, levels,
    ) {
        known = after(known, rows, step.task, step.target);
        note(log, moves, step);
        migrate(rows, counts, prio, cpu, masks, tallies, words, levels, step);
        moves += 1;
    }
    moves
}

// The steps where nothing is known. The CPUs below each level are worked out once, and kept up in each step. Nobody is looked at who is not above
// the lowest level of any CPU.
fn search(
    n: usize,
    prio: &[u8],
    cpu: &mut [u8],
    mask: &[u64],
    rows: &mut [u16],
    counts: &mut [u16],
    log: &mut [u16],
    masks: &mut [u64; LEVELS],
    tallies: &mut [u8; LEVELS],
    words: &mut [u64; WORDS],
    levels: &mut [u8; CPUS],
) -> usize
    requires settling { let r = lent_record masks.old tallies.old words.old levels.old in
        ((m : Machine) × (Settling m prio.now cpu.old mask.now counts.old rows.old r × (n ≡ m.n))) }
    requires log_len { length log.old ≡ log_places }
    ensures { let r = lent_record masks.old tallies.old words.old levels.old in
        let q = lent_record masks.new tallies.new words.new levels.new in
        ((m : Machine) → Settling m prio.now cpu.old mask.now counts.old rows.old r → n ≡ m.n
        → Ended (settle_all m) prio.now cpu.new counts.new rows.new log.old log.new result q) }
{
    let Some(level) = lowest_level(masks, words, LEVELS, u64::MAX) else {
        return 0;
    };
    let lowest = level as u8;
    let mut under = [0; LEVELS];
    fill(masks, &mut under);
    let mut steps = 0;
    while let Some(step) = next_step(
        lowest, n, prio, cpu, mask, rows, counts, &under, masks, words, levels,
    ) {
        note(log, steps, step);
        migrate(rows, counts, prio, cpu, masks, tallies, words, levels, step);
        let target = step.target;
        rise(&mut under, target, step.displaced, levels[target]);
        steps += 1;
    }
    steps
}

// The step that applies, where nothing is known. No CPU is below the level `lowest`, and `under` has the CPUs below each level.
fn next_step(
    lowest: u8,
    n: usize,
    prio: &[u8],
    cpu: &[u8],
    mask: &[u64],
    rows: &[u16],
    counts: &[u16],
    under: &[u64; LEVELS],
    masks: &[u64; LEVELS],
    words: &[u64; WORDS],
    levels: &[u8; CPUS],
) -> Option<Step>
    requires { (m : Machine) × (Choosing m n prio.now cpu.now mask.now counts.now rows.now masks.now words.now levels.now
        × Told m (Movable lowest) under.now) }
    ensures { (m : Machine) → Choosing m n prio.now cpu.now mask.now counts.now rows.now masks.now words.now levels.now
        → Told m (Movable lowest) under.now → as_move result ≡ next m }
{
    let mover = pick(Test::Movable { lowest }, n, prio, mask, rows, counts, under)?;
    step_of(Some(mover.task), prio, cpu, mask, masks, words)
}

// One step: the mover leaves its row and enters the destination's. It waited, so its old CPU's level
// stays.
fn migrate(
    rows: &mut [u16],
    counts: &mut [u16],
    prio: &[u8],
    cpus: &mut [u8],
    masks: &mut [u64; LEVELS],
    tallies: &mut [u8; LEVELS],
    words: &mut [u64; WORDS],
    levels: &mut [u8; CPUS],
    step: Step,
)
    requires stepping { let r = lent_record masks.old tallies.old words.old levels.old in
        ((m : Machine) × Stepping m prio.now counts.old rows.old r (move_by step)) }
    requires cpus_len { length cpus.old ≡ task_places }
    ensures held { let r = lent_record masks.old tallies.old words.old levels.old in
        let q = lent_record masks.new tallies.new words.new levels.new in
        ((m : Machine) → Stepping m prio.now counts.old rows.old r (move_by step)
        → Held (migrate (move_by step) m) prio.now counts.new rows.new q) }
    ensures cpus_set { cpus.new ≡ set cpus.old step.task step.target }
{
    runqueue::table::dequeue(rows, counts, step.origin, step.task);
    placement::enter(
        rows,
        counts,
        prio,
        cpus,
        masks,
        tallies,
        words,
        levels,
        step.target,
        step.task,
    );
}
