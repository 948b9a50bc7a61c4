// The parts of a plan: a task leaves a row, and it enters one; and a CPU's flag.
#![tactic(auto)]

ghost use Rattle.std.specs.Prelude.{◌≡◌, true, length, set};
ghost use Rattle.levels.specs.Record.{lent_record};
ghost use Rattle.cpupri.specs.Record.{record_of};
ghost use Rattle.rules.specs.Machine.{Machine, task_places, levels as levels_of, with_flag, enqueue_at, dequeue as dequeued};
ghost use Rattle.placement.specs.Held.{Queues};
ghost use Rattle.parts.specs.Optional.{LeavingIf, EnteringIf, Flagging};

use cpupri::record::{CPUS, LEVELS, WORDS};
use placement::follow;
use runqueue::table::{dequeue, enqueue};

// The task leaves the row.
pub fn leave(rows: &mut [u16], counts: &mut [u16], cpu: usize, task: u16)
    requires { (m : Machine) × LeavingIf true m counts.old rows.old task cpu }
    ensures { (m : Machine) → LeavingIf true m counts.old rows.old task cpu
        → Queues (dequeued task cpu m) counts.new rows.new }
{
    dequeue(rows, counts, cpu, task);
}

// The task enters the row, in front of its equals or behind them, and the row's CPU is then its CPU.
pub fn enter(
    rows: &mut [u16],
    counts: &mut [u16],
    prio: &[u8],
    cpus: &mut [u8],
    cpu: usize,
    task: u16,
    front: bool,
)
    requires entering { (m : Machine) × EnteringIf true m prio.now counts.old rows.old task cpu }
    requires cpus_len { length cpus.old ≡ task_places }
    ensures queues { (m : Machine) → EnteringIf true m prio.now counts.old rows.old task cpu
        → Queues (enqueue_at front task cpu m) counts.new rows.new }
    ensures cpus_set { cpus.new ≡ set cpus.old task cpu }
{
    enqueue(rows, counts, prio, cpu, task, front);
    cpus[task as usize] = cpu as u8;
}

// A CPU's flag is set, and its level follows if it is online.
pub fn set_flag(
    prio: &[u8],
    rows: &[u16],
    counts: &[u16],
    flags: &mut [u8],
    online: u64,
    masks: &mut [u64; LEVELS],
    tallies: &mut [u8; LEVELS],
    words: &mut [u64; WORDS],
    levels: &mut [u8; CPUS],
    cpu: usize,
    work: u8,
)
    requires { let r = lent_record masks.old tallies.old words.old levels.old in
        ((m : Machine) × Flagging m prio.now rows.now counts.now flags.old online r cpu work) }
    ensures flags_set { flags.new ≡ set flags.old cpu work }
    ensures record_follows { let r = lent_record masks.old tallies.old words.old levels.old in
        let q = lent_record masks.new tallies.new words.new levels.new in
        ((m : Machine) → Flagging m prio.now rows.now counts.now flags.old online r cpu work
        → q ≡ record_of (levels_of (with_flag cpu work m))) }
{
    flags[cpu] = work;
    if !bits::test_bit(online, cpu) {
        return;
    }
    follow(
        rows, counts, prio, flags, masks, tallies, words, levels, cpu,
    );
}
