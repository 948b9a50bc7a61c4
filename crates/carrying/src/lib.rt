// A decision is carried out, whatever the kind of event: a task leaves its row or not, its columns are written, it enters a row or
// not, and the levels of those rows' CPUs follow; or a CPU's flag is set, or the CPU goes or comes back.
#![tactic(auto)]

ghost use Rattle.std.specs.Prelude.{◌≡◌, false, cond, is_some, unwrap_or, option_map, length, set};
ghost use Rattle.levels.specs.Record.{lent_record};
ghost use Rattle.cpupri.specs.Record.{record_of, Whole};
ghost use Rattle.rules.specs.Machine.{Machine, task_places, enqueue_at, dequeue};
ghost use Rattle.rules.specs.Plan.{carried};
ghost use Rattle.plans.specs.Decided.{as_plan, did};
ghost use Rattle.placement.specs.Held.{Queues, followed};
ghost use Rattle.parts.specs.Optional.{LeavingIf, EnteringIf, FollowingIf};
ghost use Rattle.carrying.specs.Holds.{Holds, Carriable, Placeable};

use cpupri::record::{CPUS, LEVELS, WORDS};
use evacuation::{bring_online, take_offline};
use parts::{enter, leave, set_flag};
use placement::follow;
use plans::columns::write;
use plans::plan::{Decision, Entry, Plan};

pub fn carry_out(
    state: &mut [u8],
    policy: &mut [u8],
    prio: &mut [u8],
    cpu: &mut [u8],
    slice: &mut [u16],
    mask: &mut [u64],
    rows: &mut [u16],
    counts: &mut [u16],
    flags: &mut [u8],
    online: &mut u64,
    masks: &mut [u64; LEVELS],
    tallies: &mut [u8; LEVELS],
    words: &mut [u64; WORDS],
    levels: &mut [u8; CPUS],
    decision: Decision,
)
    requires { let r = lent_record masks.old tallies.old words.old levels.old in
        ((m : Machine) × Carriable m state.old policy.old prio.old cpu.old slice.old mask.old
        rows.old counts.old flags.old online.old r decision) }
    ensures { let r = lent_record masks.old tallies.old words.old levels.old in
        let q = lent_record masks.new tallies.new words.new levels.new in
        ((m : Machine)
        → Carriable m state.old policy.old prio.old cpu.old slice.old mask.old rows.old counts.old flags.old
        online.old r decision
        → Holds (did decision m) state.new policy.new prio.new cpu.new slice.new mask.new
        rows.new counts.new flags.new online.new q) }
{
    match decision {
        Decision::Place(plan) => place(
            state, policy, prio, cpu, slice, mask, rows, counts, flags, masks, tallies, words,
            levels, plan,
        ),
        Decision::Flag { cpu: at, work } => set_flag(
            prio, rows, counts, flags, *online, masks, tallies, words, levels, at, work,
        ),
        Decision::Offline { cpu: at } => take_offline(
            prio, cpu, mask, rows, counts, flags, online, masks, tallies, words, levels, at,
        ),
        Decision::Online { cpu: at } => bring_online(
            prio, rows, counts, flags, online, masks, tallies, words, levels, at,
        ),
        Decision::Nothing => {}
    }
}

fn place(
    state: &mut [u8],
    policy: &mut [u8],
    prio: &mut [u8],
    cpu: &mut [u8],
    slice: &mut [u16],
    mask: &mut [u64],
    rows: &mut [u16],
    counts: &mut [u16],
    flags: &[u8],
    masks: &mut [u64; LEVELS],
    tallies: &mut [u8; LEVELS],
    words: &mut [u64; WORDS],
    levels: &mut [u8; CPUS],
    plan: Plan,
)
    requires { let r = lent_record masks.old tallies.old words.old levels.old in
        ((m : Machine) × Placeable m state.old policy.old prio.old cpu.old slice.old mask.old
        rows.old counts.old flags.now r (as_plan plan)) }
    ensures { let r = lent_record masks.old tallies.old words.old levels.old in
        let q = lent_record masks.new tallies.new words.new levels.new in
        let p = as_plan plan in
        ((m : Machine)
        → Placeable m state.old policy.old prio.old cpu.old slice.old mask.old rows.old counts.old flags.now r p
        → Holds (carried p m) state.new policy.new prio.new cpu.new slice.new mask.new
        rows.new counts.new flags.now m.online q) }
{
    let becomes = plan.becomes;
    leave_if(plan.leaves, rows, counts, plan.task);
    write(
        state,
        policy,
        prio,
        cpu,
        slice,
        mask,
        plan.task as usize,
        becomes,
    );
    enter_if(plan.enters, rows, counts, prio, cpu, plan.task);
    follow_if(
        plan.leaves,
        rows,
        counts,
        prio,
        flags,
        masks,
        tallies,
        words,
        levels,
    );
    follow_if(
        target_of(plan.enters),
        rows,
        counts,
        prio,
        flags,
        masks,
        tallies,
        words,
        levels,
    );
}

// The task leaves the row of its origin, if it has one.
fn leave_if(origin: Option<usize>, rows: &mut [u16], counts: &mut [u16], task: u16)
    requires { (m : Machine) × LeavingIf (is_some origin) m counts.old rows.old task (unwrap_or origin 0) }
    ensures { (m : Machine) → LeavingIf (is_some origin) m counts.old rows.old task (unwrap_or origin 0)
        → Queues (cond (is_some origin) (dequeue task (unwrap_or origin 0) m) m) counts.new rows.new }
{
    if let Some(cpu) = origin {
        leave(rows, counts, cpu, task);
    }
}

// The task enters the row of its entry, if it has one, and the row's CPU is then its CPU.
fn enter_if(
    entry: Option<Entry>,
    rows: &mut [u16],
    counts: &mut [u16],
    prio: &[u8],
    cpus: &mut [u8],
    task: u16,
)
    requires entering { let target = unwrap_or (option_map (λ e. e.target) entry) 0 in
        ((m : Machine) × EnteringIf (is_some entry) m prio.now counts.old rows.old task target) }
    requires cpus_len { length cpus.old ≡ task_places }
    ensures queues { let target = unwrap_or (option_map (λ e. e.target) entry) 0 in
        let front = unwrap_or (option_map (λ e. e.front) entry) false in
        ((m : Machine) → EnteringIf (is_some entry) m prio.now counts.old rows.old task target
        → Queues (cond (is_some entry) (enqueue_at front task target m) m) counts.new rows.new) }
    ensures cpus_set { let target = unwrap_or (option_map (λ e. e.target) entry) 0 in
        cpus.new ≡ cond (is_some entry) (set cpus.old task target) cpus.old }
{
    if let Some(to) = entry {
        enter(rows, counts, prio, cpus, to.target, task, to.front);
    }
}

// The CPU whose row it enters.
fn target_of(entry: Option<Entry>) -> Option<usize>
    ensures { result ≡ option_map (λ e. e.target) entry }
{
    let Some(to) = entry else {
        return None;
    };
    Some(to.target)
}

// The CPU's level follows its row, if there is one.
fn follow_if(
    cpu: Option<usize>,
    rows: &[u16],
    counts: &[u16],
    prio: &[u8],
    flags: &[u8],
    masks: &mut [u64; LEVELS],
    tallies: &mut [u8; LEVELS],
    words: &mut [u64; WORDS],
    levels: &mut [u8; CPUS],
)
    requires following { (m : Machine) × FollowingIf (is_some cpu) m prio.now flags.now counts.now rows.now (unwrap_or cpu 0) }
    requires whole { let r = lent_record masks.old tallies.old words.old levels.old in
        (Whole r) }
    ensures { let r = lent_record masks.old tallies.old words.old levels.old in
        let q = lent_record masks.new tallies.new words.new levels.new in
        ((m : Machine) → FollowingIf (is_some cpu) m prio.now flags.now counts.now rows.now (unwrap_or cpu 0)
        → q ≡ record_of (followed (is_some cpu) (unwrap_or cpu 0) m r.levels)) }
{
    if let Some(at) = cpu {
        follow(rows, counts, prio, flags, masks, tallies, words, levels, at);
    }
}
