// A task's priority or affinity changes: kinds 5 and 6, decided and carried out.
#![tactic(auto)]

ghost use Rattle.std.specs.Prelude.{◌≡◌, ℕ};
ghost use Rattle.levels.specs.Record.{lent_record};
ghost use Rattle.rules.specs.Machine.{Machine};
ghost use Rattle.rules.specs.Events.{event};
ghost use Rattle.effect.specs.Effected.{Lends, Effected};

use cpupri::record::{CPUS, LEVELS, WORDS};
use deciding::read::task_at;
use hinting::hint::Candidates;
use queueing::{reorder, shift, stay};
use rules::answer::Refusal;

// Kind 5: its priority is written, and it stays where it is or takes another place in its row.
pub fn set_priority(
    state: &[u8],
    policy: &[u8],
    prio: &mut [u8],
    cpu: &[u8],
    slice: &[u16],
    mask: &[u64],
    rows: &mut [u16],
    counts: &[u16],
    flags: &[u8],
    masks: &mut [u64; LEVELS],
    tallies: &mut [u8; LEVELS],
    words: &mut [u64; WORDS],
    levels: &mut [u8; CPUS],
    who: u32,
    b: u32,
) -> Result<Candidates, Refusal>
    requires { let r = lent_record masks.old tallies.old words.old levels.old in
        ((m : Machine) × Lends m state.now policy.now prio.old cpu.now slice.now mask.now
        rows.old counts.now flags.now m.online r) }
    ensures { let r = lent_record masks.old tallies.old words.old levels.old in
        let q = lent_record masks.new tallies.new words.new levels.new in
        ((m : Machine) (a k : ℕ) → Lends m state.now policy.now prio.old cpu.now slice.now mask.now
        rows.old counts.now flags.now m.online r →
        Effected m (event 5 who a b k) result state.now policy.now prio.new cpu.now slice.now mask.now
        rows.new counts.now flags.now m.online q) }
{
    let named = task_at(state, policy, prio, cpu, slice, mask, who as usize);
    let Some(plan) = change::set_priority(named, who, b)? else {
        return Ok(Candidates::NOBODY);
    };
    prio[plan.task as usize] = plan.becomes.prio;
    let Some(entry) = plan.enters else {
        return Ok(stay(
            state, prio, cpu, rows, counts, flags, masks, tallies, words, levels, plan.task,
        ));
    };
    Ok(reorder(
        state,
        prio,
        cpu,
        rows,
        counts,
        flags,
        masks,
        tallies,
        words,
        levels,
        plan.task,
        entry.target,
        entry.front,
    ))
}

// Kind 6: its mask is written, and it stays where it is or goes to another row.
pub fn set_affinity(
    n: usize,
    online: u64,
    state: &[u8],
    policy: &[u8],
    prio: &[u8],
    cpu: &mut [u8],
    slice: &[u16],
    mask: &mut [u64],
    rows: &mut [u16],
    counts: &mut [u16],
    flags: &[u8],
    masks: &mut [u64; LEVELS],
    tallies: &mut [u8; LEVELS],
    words: &mut [u64; WORDS],
    levels: &mut [u8; CPUS],
    who: u32,
    k: u64,
) -> Result<Candidates, Refusal>
    requires { let r = lent_record masks.old tallies.old words.old levels.old in
        ((m : Machine) × (Lends m state.now policy.now prio.now cpu.old slice.now mask.old
        rows.old counts.old flags.now online r × (n ≡ m.n))) }
    ensures { let r = lent_record masks.old tallies.old words.old levels.old in
        let q = lent_record masks.new tallies.new words.new levels.new in
        ((m : Machine) (a b : ℕ) → Lends m state.now policy.now prio.now cpu.old slice.now mask.old
        rows.old counts.old flags.now online r → n ≡ m.n →
        Effected m (event 6 who a b k) result state.now policy.now prio.now cpu.new slice.now mask.new
        rows.new counts.new flags.now online q) }
{
    let named = task_at(state, policy, prio, cpu, slice, mask, who as usize);
    let plan = change::set_affinity(n, online, named, who, k)?;
    mask[plan.task as usize] = plan.becomes.mask;
    let Some(entry) = plan.enters else {
        return Ok(stay(
            state, prio, cpu, rows, counts, flags, masks, tallies, words, levels, plan.task,
        ));
    };
    Ok(shift(
        state,
        prio,
        cpu,
        rows,
        counts,
        flags,
        masks,
        tallies,
        words,
        levels,
        plan.task,
        named.cpu as usize,
        entry.target,
    ))
}
