// A tick, and a yield: kinds 7 and 8, decided and carried out.
#![tactic(auto)]

ghost use Rattle.std.specs.Prelude.{◌≡◌, ℕ};
ghost use Rattle.levels.specs.Record.{lent_record};
ghost use Rattle.rules.specs.Machine.{Machine};
ghost use Rattle.rules.specs.Events.{event};
ghost use Rattle.effect.specs.Effected.{Lends, Effected};

use cpupri::record::{CPUS, LEVELS, WORDS};
use deciding::read::{running, with_columns};
use hinting::hint::Candidates;
use queueing::requeue;
use rules::answer::Refusal;

// Kind 7: the slice of the task that runs is written, and it stays where it is or goes behind its equals.
pub fn tick(
    n: usize,
    online: u64,
    full: u16,
    state: &[u8],
    policy: &[u8],
    prio: &[u8],
    cpu: &[u8],
    slice: &mut [u16],
    mask: &[u64],
    rows: &mut [u16],
    counts: &[u16],
    flags: &[u8],
    masks: &[u64; LEVELS],
    tallies: &[u8; LEVELS],
    words: &[u64; WORDS],
    levels: &[u8; CPUS],
    who: u32,
) -> Result<Candidates, Refusal>
    requires { let r = lent_record masks.now tallies.now words.now levels.now in
        ((m : Machine) × (Lends m state.now policy.now prio.now cpu.now slice.old mask.now
        rows.old counts.now flags.now online r × (n ≡ m.n) × (full ≡ m.full))) }
    ensures { let r = lent_record masks.now tallies.now words.now levels.now in
        ((m : Machine) (a b k : ℕ) → Lends m state.now policy.now prio.now cpu.now slice.old mask.now
        rows.old counts.now flags.now online r → n ≡ m.n → full ≡ m.full →
        Effected m (event 7 who a b k) result state.now policy.now prio.now cpu.now slice.new mask.now
        rows.new counts.now flags.now online r) }
{
    let first = running(n, rows, counts, who as usize);
    let runner = with_columns(state, policy, prio, cpu, slice, mask, first); // whose tick it is
    let Some(plan) = percpu::tick(n, online, full, runner, who)? else {
        return Ok(Candidates::NOBODY);
    };
    slice[plan.task as usize] = plan.becomes.slice;
    let Some(entry) = plan.enters else {
        return Ok(Candidates::NOBODY);
    };
    Ok(requeue(
        state,
        prio,
        cpu,
        rows,
        counts,
        flags,
        masks,
        tallies,
        words,
        levels,
        plan.task,
        entry.target,
    ))
}

// Kind 8: the task that runs goes behind its equals.
pub fn yield_cpu(
    n: usize,
    online: u64,
    state: &[u8],
    policy: &[u8],
    prio: &[u8],
    cpu: &[u8],
    slice: &[u16],
    mask: &[u64],
    rows: &mut [u16],
    counts: &[u16],
    flags: &[u8],
    masks: &[u64; LEVELS],
    tallies: &[u8; LEVELS],
    words: &[u64; WORDS],
    levels: &[u8; CPUS],
    who: u32,
) -> Result<Candidates, Refusal>
    requires { let r = lent_record masks.now tallies.now words.now levels.now in
        ((m : Machine) × (Lends m state.now policy.now prio.now cpu.now slice.now mask.now
        rows.old counts.now flags.now online r × (n ≡ m.n))) }
    ensures { let r = lent_record masks.now tallies.now words.now levels.now in
        ((m : Machine) (a b k : ℕ) → Lends m state.now policy.now prio.now cpu.now slice.now mask.now
        rows.old counts.now flags.now online r → n ≡ m.n →
        Effected m (event 8 who a b k) result state.now policy.now prio.now cpu.now slice.now mask.now
        rows.new counts.now flags.now online r) }
{
    let first = running(n, rows, counts, who as usize);
    let runner = with_columns(state, policy, prio, cpu, slice, mask, first);
    let plan = percpu::yield_cpu(n, online, runner, who)?;
    Ok(requeue(
        state,
        prio,
        cpu,
        rows,
        counts,
        flags,
        masks,
        tallies,
        words,
        levels,
        plan.task,
        who as usize,
    ))
}
