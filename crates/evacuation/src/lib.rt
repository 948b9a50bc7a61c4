// A CPU goes offline: its tasks leave it front to back, each for the lowest-numbered online CPU that it is allowed. And a CPU
// comes back.
#![tactic(auto)]

ghost use Rattle.std.specs.Prelude.{◌≡◌, ◌*◌, ◌<◌, get_or};
ghost use Rattle.levels.specs.Record.{lent_record};
ghost use Rattle.bits.specs.Bit.{with_bit, without_bit};
ghost use Rattle.cpupri.specs.Record.{record_of};
ghost use Rattle.rules.specs.Machine.{Machine, task_places, levels as levels_of, with_cpu};
ghost use Rattle.rules.specs.Events.{taken_offline};
ghost use Rattle.laws.specs.Leaving.{one_less};
ghost use Rattle.evacuation.specs.Going.{Emptying, Emptied, Shifted, Coming};

use cpupri::lent::set_level;
use cpupri::level::Level;
use cpupri::record::{CPUS, LEVELS, WORDS};
use runqueue::row::PLACES;

// The CPU is offline: its row is empty and its level INVALID.
pub fn take_offline(
    prio: &[u8],
    cpus: &mut [u8],
    mask: &[u64],
    rows: &mut [u16],
    counts: &mut [u16],
    flags: &[u8],
    online: &mut u64,
    masks: &mut [u64; LEVELS],
    tallies: &mut [u8; LEVELS],
    words: &mut [u64; WORDS],
    levels: &mut [u8; CPUS],
    cpu: usize,
)
    requires { let r = lent_record masks.old tallies.old words.old levels.old in
        ((m : Machine) × (Emptying m prio.now cpus.old mask.now rows.old counts.old flags.now r cpu
        (without_bit online.old cpu) × (online.old ≡ m.online))) }
    ensures { let r = lent_record masks.old tallies.old words.old levels.old in
        let q = lent_record masks.new tallies.new words.new levels.new in
        ((m : Machine) → Emptying m prio.now cpus.old mask.now rows.old counts.old flags.now r cpu
        (without_bit online.old cpu) → online.old ≡ m.online
        → Shifted (taken_offline cpu m) cpus.new rows.new counts.new online.new q) }
{
    let stay = bits::clear_bit(*online, cpu);
    evacuate(
        prio, cpus, mask, rows, counts, flags, masks, tallies, words, levels, cpu, stay,
    );
    *online = stay;
    set_level(masks, tallies, words, levels, cpu, Level::INVALID);
}

// The CPU is online again: its level is its ordinary-work flag.
pub fn bring_online(
    prio: &[u8],
    rows: &[u16],
    counts: &[u16],
    flags: &[u8],
    online: &mut u64,
    masks: &mut [u64; LEVELS],
    tallies: &mut [u8; LEVELS],
    words: &mut [u64; WORDS],
    levels: &mut [u8; CPUS],
    cpu: usize,
)
    requires { let r = lent_record masks.old tallies.old words.old levels.old in
        ((m : Machine) × Coming m prio.now rows.now counts.now flags.now online.old r cpu) }
    ensures online_set { online.new ≡ with_bit online.old cpu }
    ensures record_follows { let r = lent_record masks.old tallies.old words.old levels.old in
        let q = lent_record masks.new tallies.new words.new levels.new in
        ((m : Machine) → Coming m prio.now rows.now counts.now flags.now online.old r cpu
        → q ≡ record_of (levels_of (with_cpu cpu m))) }
{
    *online = bits::set_bit(*online, cpu);
    placement::follow(
        rows, counts, prio, flags, masks, tallies, words, levels, cpu,
    );
}

// The tasks of the CPU leave it, one after the other, for the CPUs of `up`: the one that ran, then those that waited. (A function
// that is called twice keeps its code apart from that of all other kinds.)
fn evacuate(
    prio: &[u8],
    cpus: &mut [u8],
    mask: &[u64],
    rows: &mut [u16],
    counts: &mut [u16],
    flags: &[u8],
    masks: &mut [u64; LEVELS],
    tallies: &mut [u8; LEVELS],
    words: &mut [u64; WORDS],
    levels: &mut [u8; CPUS],
    cpu: usize,
    up: u64,
)
    requires { let r = lent_record masks.old tallies.old words.old levels.old in
        ((m : Machine) × Emptying m prio.now cpus.old mask.now rows.old counts.old flags.now r cpu up) }
    ensures { let r = lent_record masks.old tallies.old words.old levels.old in
        let q = lent_record masks.new tallies.new words.new levels.new in
        ((m : Machine) → Emptying m prio.now cpus.old mask.now rows.old counts.old flags.now r cpu up
        → Emptied m prio.now cpus.new mask.now rows.new counts.new flags.now q cpu up) }
{
    if counts[cpu] == 0 {
        return;
    }
    leave_first(
        prio, cpus, mask, rows, counts, flags, masks, tallies, words, levels, cpu, up,
    );
    // no count: the turns end when the row is empty
    while counts[cpu] != 0 {
        leave_first(
            prio, cpus, mask, rows, counts, flags, masks, tallies, words, levels, cpu, up,
        );
    }
}

// The first task of the CPU's row leaves it and enters that of the lowest-numbered CPU of `up` that it is allowed. Both
// CPUs' levels follow.
fn leave_first(
    prio: &[u8],
    cpus: &mut [u8],
    mask: &[u64],
    rows: &mut [u16],
    counts: &mut [u16],
    flags: &[u8],
    masks: &mut [u64; LEVELS],
    tallies: &mut [u8; LEVELS],
    words: &mut [u64; WORDS],
    levels: &mut [u8; CPUS],
    cpu: usize,
    up: u64,
)
    requires { let r = lent_record masks.old tallies.old words.old levels.old in
        ((m : Machine) × (Emptying m prio.now cpus.old mask.now rows.old counts.old flags.now r cpu up
        × (0 < get_or counts.old cpu 0))) }
    ensures { let r = lent_record masks.old tallies.old words.old levels.old in
        let q = lent_record masks.new tallies.new words.new levels.new in
        let t = get_or rows.old (cpu * task_places) 0 in
        ((m : Machine) → Emptying m prio.now cpus.old mask.now rows.old counts.old flags.now r cpu up
        → 0 < get_or counts.old cpu 0
        → Emptying (one_less up cpu m t) prio.now cpus.new mask.now rows.new counts.new flags.now q cpu up) }
{
    let task = rows[cpu * PLACES];
    let target = bits::lowest_bit(mask[task as usize] & up) as usize;
    runqueue::table::dequeue(rows, counts, cpu, task);
    placement::follow(
        rows, counts, prio, flags, masks, tallies, words, levels, cpu,
    );
    placement::enter(
        rows, counts, prio, cpus, masks, tallies, words, levels, target, task,
    );
}
