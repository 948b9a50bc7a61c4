// An event's own effect, by its kind: what is decided is carried out at once, and who can move then is told.
#![tactic(auto)]

ghost use Rattle.std.specs.Prelude.{◌≡◌};
ghost use Rattle.levels.specs.Record.{lent_record};
ghost use Rattle.rules.specs.Machine.{Machine};
ghost use Rattle.plans.specs.Decided.{as_event};
ghost use Rattle.deciding.specs.Subject.{Rare};
ghost use Rattle.effect.specs.Effected.{Lends, Effected};

use carrying::carry_out;
use changing::{set_affinity, set_priority};
use cpupri::record::{CPUS, LEVELS, WORDS};
use deciding::decide;
use hinting::hint::Candidates;
use hinting::past::{remember, since};
use plans::event::Event;
use rules::answer::Refusal;
use stranding::strands;
use ticking::{tick, yield_cpu};
use waking::{sleep, wake};

// Kinds 3 to 8, which come often, have functions of their own.
pub fn effect(
    n: usize,
    full: u16,
    state: &mut [u8],
    policy: &mut [u8],
    prio: &mut [u8],
    cpu: &mut [u8],
    slice: &mut [u16],
    mask: &mut [u64],
    rows: &mut [u16],
    counts: &mut [u16],
    flags: &mut [u8],
    online: &mut u64,
    masks: &mut [u64; LEVELS],
    tallies: &mut [u8; LEVELS],
    words: &mut [u64; WORDS],
    levels: &mut [u8; CPUS],
    event: Event,
) -> Result<Candidates, Refusal>
    requires { let r = lent_record masks.old tallies.old words.old levels.old in
        ((m : Machine) × (Lends m state.old policy.old prio.old cpu.old slice.old mask.old
        rows.old counts.old flags.old online.old r × (n ≡ m.n) × (full ≡ m.full))) }
    ensures { let r = lent_record masks.old tallies.old words.old levels.old in
        let q = lent_record masks.new tallies.new words.new levels.new in
        ((m : Machine) → Lends m state.old policy.old prio.old cpu.old slice.old mask.old
        rows.old counts.old flags.old online.old r → n ≡ m.n → full ≡ m.full
        → Effected m (as_event event) result state.new policy.new prio.new cpu.new slice.new mask.new
        rows.new counts.new flags.new online.new q) }
{
    // over the kinds' numbers: the form that the project's scope gives for this place
    match event.kind {
        3 => wake(
            *online, state, policy, prio, cpu, slice, mask, rows, counts, flags, masks, tallies,
            words, levels, event.who,
        ),
        4 => sleep(
            state, policy, prio, cpu, slice, mask, rows, counts, flags, masks, tallies, words,
            levels, event.who,
        ),
        5 => set_priority(
            state, policy, prio, cpu, slice, mask, rows, counts, flags, masks, tallies, words,
            levels, event.who, event.b,
        ),
        6 => set_affinity(
            n, *online, state, policy, prio, cpu, slice, mask, rows, counts, flags, masks, tallies,
            words, levels, event.who, event.mask,
        ),
        7 => tick(
            n, *online, full, state, policy, prio, cpu, slice, mask, rows, counts, flags, masks,
            tallies, words, levels, event.who,
        ),
        8 => yield_cpu(
            n, *online, state, policy, prio, cpu, slice, mask, rows, counts, flags, masks, tallies,
            words, levels, event.who,
        ),
        _ => rest(
            n, full, state, policy, prio, cpu, slice, mask, rows, counts, flags, online, masks,
            tallies, words, levels, event,
        ),
    }
}

// The other kinds are decided first, and then carried out together.
fn rest(
    n: usize,
    full: u16,
    state: &mut [u8],
    policy: &mut [u8],
    prio: &mut [u8],
    cpu: &mut [u8],
    slice: &mut [u16],
    mask: &mut [u64],
    rows: &mut [u16],
    counts: &mut [u16],
    flags: &mut [u8],
    online: &mut u64,
    masks: &mut [u64; LEVELS],
    tallies: &mut [u8; LEVELS],
    words: &mut [u64; WORDS],
    levels: &mut [u8; CPUS],
    event: Event,
) -> Result<Candidates, Refusal>
    requires rare { Rare event.kind }
    requires lent { let r = lent_record masks.old tallies.old words.old levels.old in
        ((m : Machine) × (Lends m state.old policy.old prio.old cpu.old slice.old mask.old
        rows.old counts.old flags.old online.old r × (n ≡ m.n) × (full ≡ m.full))) }
    ensures { let r = lent_record masks.old tallies.old words.old levels.old in
        let q = lent_record masks.new tallies.new words.new levels.new in
        ((m : Machine) → Lends m state.old policy.old prio.old cpu.old slice.old mask.old
        rows.old counts.old flags.old online.old r → n ≡ m.n → full ≡ m.full
        → Effected m (as_event event) result state.new policy.new prio.new cpu.new slice.new mask.new
        rows.new counts.new flags.new online.new q) }
{
    let up = *online;
    let stranding = strands(n, up, mask, rows, counts, event.kind, event.who);
    let decision = decide(
        n, up, full, state, policy, prio, cpu, slice, mask, stranding, event,
    )?;
    let past = remember(decision, cpu, rows, levels);
    carry_out(
        state, policy, prio, cpu, slice, mask, rows, counts, flags, online, masks, tallies, words,
        levels, decision,
    );
    Ok(since(past, state, cpu, rows, levels))
}
