// An event on tables that pass the check: the event's own effect, then migration steps until none applies.
#![tactic(auto)]

ghost use Rattle.std.specs.Prelude.{◌≡◌, true};
ghost use Rattle.levels.specs.Record.{lent_record};
ghost use Rattle.rules.specs.Answers.{answer_of};
ghost use Rattle.rules.specs.Entry.{result_of, checked, handled};
ghost use Rattle.laws.specs.Still.{Still};
ghost use Rattle.lenttables.specs.Lent.{lent};
ghost use Rattle.plans.specs.Decided.{as_event};
ghost use Rattle.handling.specs.Moves.{moves_of};

use cpupri::record::{CPUS, LEVELS, WORDS};
use dispatch::effect;
use hinting::hint::known;
use migration::settle::settle;
use plans::event::Event;
use rules::answer::Refusal;

// One event on well-formed tables, which stay well-formed: the number of moves, or a refusal, which changes nothing. Nothing is checked again
// but the event. `settled` says that no task is movable now, as an accepted event leaves it: then few tasks are looked at.
pub fn handle(
    settled: bool,
    n: usize,
    state: &mut [u8],
    policy: &mut [u8],
    prio: &mut [u8],
    cpu: &mut [u8],
    slice: &mut [u16],
    mask: &mut [u64],
    rows: &mut [u16],
    counts: &mut [u16],
    flags: &mut [u8],
    online: &mut u64,
    log: &mut [u16],
    masks: &mut [u64; LEVELS],
    tallies: &mut [u8; LEVELS],
    words: &mut [u64; WORDS],
    levels: &mut [u8; CPUS],
    full: u16,
    event: Event,
) -> Result<u32, Refusal>
    requires log_value { let r = lent_record masks.old tallies.old words.old levels.old in
        (checked n r
        (lent full state.old policy.old prio.old cpu.old slice.old mask.old rows.old counts.old flags.old online.old log.old) ≡ 0) }
    requires still { settled ≡ true → Still n
        (lent full state.old policy.old prio.old cpu.old slice.old mask.old rows.old counts.old flags.old online.old log.old) }
    ensures as_ruled { let r = lent_record masks.old tallies.old words.old levels.old in
        let q = lent_record masks.new tallies.new words.new levels.new in
        let s = lent full state.old policy.old prio.old cpu.old slice.old mask.old rows.old counts.old flags.old online.old log.old in
        let t = lent full state.new policy.new prio.new cpu.new slice.new mask.new rows.new counts.new flags.new online.new log.new in
        result_of (answer_of result) (moves_of result) q t ≡ handled n r s (as_event event) }
    ensures leaves_well_formed { let q = lent_record masks.new tallies.new words.new levels.new in
        let t = lent full state.new policy.new prio.new cpu.new slice.new mask.new rows.new counts.new flags.new online.new log.new in
        checked n q t ≡ 0 }
    ensures settles { let t = lent full state.new policy.new prio.new cpu.new slice.new mask.new rows.new counts.new flags.new online.new log.new in
        (answer_of result ≡ 0 → Still n t) }
    ensures stays_settled { let s = lent full state.old policy.old prio.old cpu.old slice.old mask.old rows.old counts.old flags.old online.old log.old in
        let t = lent full state.new policy.new prio.new cpu.new slice.new mask.new rows.new counts.new flags.new online.new log.new in
        (Still n s → Still n t) }
{
    let few = effect(
        n, full, state, policy, prio, cpu, slice, mask, rows, counts, flags, online, masks,
        tallies, words, levels, event,
    )?;
    let hint = known(settled, few);
    let moves = settle(
        hint, n, prio, cpu, mask, rows, counts, log, masks, tallies, words, levels,
    ) as u32;
    Ok(moves)
}
