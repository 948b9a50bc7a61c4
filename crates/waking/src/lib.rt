// A task wakes or sleeps: kinds 3 and 4, decided and carried out.
#![tactic(auto)]

ghost use Rattle.std.specs.Prelude.{ℕ};
ghost use Rattle.levels.specs.Record.{lent_record};
ghost use Rattle.rules.specs.Machine.{Machine};
ghost use Rattle.rules.specs.Events.{event};
ghost use Rattle.effect.specs.Effected.{Lends, Effected};

use cpupri::record::{CPUS, LEVELS, WORDS};
use deciding::read::task_at;
use hinting::hint::Candidates;
use queueing::{enter, leave};
use rules::answer::Refusal;

// Kind 3: its state is written and it enters a row.
pub fn wake(
    online: u64,
    state: &mut [u8],
    policy: &[u8],
    prio: &[u8],
    cpu: &mut [u8],
    slice: &[u16],
    mask: &[u64],
    rows: &mut [u16],
    counts: &mut [u16],
    flags: &[u8],
    masks: &mut [u64; LEVELS],
    tallies: &mut [u8; LEVELS],
    words: &mut [u64; WORDS],
    levels: &mut [u8; CPUS],
    who: u32,
) -> Result<Candidates, Refusal>
    requires { let r = lent_record masks.old tallies.old words.old levels.old in
        ((m : Machine) × Lends m state.old policy.now prio.now cpu.old slice.now mask.now rows.old counts.old flags.now online r) }
    ensures { let r = lent_record masks.old tallies.old words.old levels.old in
        let q = lent_record masks.new tallies.new words.new levels.new in
        ((m : Machine) (a b k : ℕ) → Lends m state.old policy.now prio.now cpu.old slice.now mask.now
        rows.old counts.old flags.now online r →
        Effected m (event 3 who a b k) result state.new policy.now prio.now cpu.new slice.now mask.now
        rows.new counts.new flags.now online q) }
{
    let named = task_at(state, policy, prio, cpu, slice, mask, who as usize);
    let plan = lifecycle::wake(online, named, who)?;
    state[plan.task as usize] = plan.becomes.state;
    Ok(enter(
        state,
        prio,
        cpu,
        rows,
        counts,
        flags,
        masks,
        tallies,
        words,
        levels,
        plan.task,
        plan.enters.unwrap().target,
    ))
}

// Kind 4: its state is written and it leaves its row.
pub fn sleep(
    state: &mut [u8],
    policy: &[u8],
    prio: &[u8],
    cpu: &[u8],
    slice: &[u16],
    mask: &[u64],
    rows: &mut [u16],
    counts: &mut [u16],
    flags: &[u8],
    masks: &mut [u64; LEVELS],
    tallies: &mut [u8; LEVELS],
    words: &mut [u64; WORDS],
    levels: &mut [u8; CPUS],
    who: u32,
) -> Result<Candidates, Refusal>
    requires { let r = lent_record masks.old tallies.old words.old levels.old in
        ((m : Machine) × Lends m state.old policy.now prio.now cpu.now slice.now mask.now
        rows.old counts.old flags.now m.online r) }
    ensures { let r = lent_record masks.old tallies.old words.old levels.old in
        let q = lent_record masks.new tallies.new words.new levels.new in
        ((m : Machine) (a b k : ℕ) → Lends m state.old policy.now prio.now cpu.now slice.now mask.now
        rows.old counts.old flags.now m.online r →
        Effected m (event 4 who a b k) result state.new policy.now prio.now cpu.now slice.now mask.now
        rows.new counts.new flags.now m.online q) }
{
    let named = task_at(state, policy, prio, cpu, slice, mask, who as usize);
    let plan = lifecycle::sleep(named, who)?;
    state[plan.task as usize] = plan.becomes.state;
    Ok(leave(
        state,
        prio,
        cpu,
        rows,
        counts,
        flags,
        masks,
        tallies,
        words,
        levels,
        plan.task,
        named.cpu as usize,
    ))
}
