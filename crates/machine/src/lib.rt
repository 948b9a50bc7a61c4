// The machine's event over tables lent by the caller: the checks, the event's own effect, then
// migration steps until none applies. What comes after the checks is crate `handling`.
#![tactic(auto)]

ghost use Rattle.std.specs.Prelude.{◌≡◌};
ghost use Rattle.rules.specs.Answers.{answer_of};
ghost use Rattle.rules.specs.Entry.{result_of, checked, handled};
ghost use Rattle.rules.specs.Events.{effect};
ghost use Rattle.rules.specs.LentDemand3.{LentDemand3};
ghost use Rattle.rules.specs.Tables.{machine_of};
ghost use Rattle.lenttables.specs.Lent.{lent};
ghost use Rattle.plans.specs.Decided.{as_event};
ghost use Rattle.handling.specs.Moves.{moves_of};

use checker::check::check_lent;
use cpupri::record::Record;
pub use handling::handle;
use plans::event::Event;
use rules::answer::Refusal;

// The number of moves, or a refusal; and the record, as it was handed in on a refusal.
#[derive(Clone, Copy)]
pub struct Outcome {
    pub answer: Result<u32, Refusal>,
    pub record: Record,
}

// One event on any tables, with a full slice of so many ticks. Refused with the first number that applies: 1 (N, the
// full slice or a table's length), 2 (the tables or the record are not well-formed), 3 to 12 (the event). The record is handed in and back whole,
// by value: so the project rules it for the public entries.
pub fn event(
    n: usize,
    full: u32,
    state: &mut [u8],
    policy: &mut [u8],
    prio: &mut [u8],
    cpu: &mut [u8],
    slice: &mut [u16],
    mask: &mut [u64],
    rows: &mut [u16],
    counts: &mut [u16],
    flags: &mut [u8],
    online: &mut u64,
    log: &mut [u16],
    record: Record,
    event: Event,
) -> Outcome
    ensures as_ruled { let s = lent full state.old policy.old prio.old cpu.old slice.old mask.old rows.old counts.old flags.old online.old log.old in
        let t = lent full state.new policy.new prio.new cpu.new slice.new mask.new rows.new counts.new flags.new online.new log.new in
        result_of (answer_of result.answer) (moves_of result.answer) result.«record» t ≡ handled n «record» s (as_event event) }
    ensures demand3_holds { let s = lent full state.old policy.old prio.old cpu.old slice.old mask.old rows.old counts.old flags.old online.old log.old in
        let t = lent full state.new policy.new prio.new cpu.new slice.new mask.new rows.new counts.new flags.new online.new log.new in
        (answer_of result.answer ≡ 0 → LentDemand3 n (moves_of result.answer) (effect (as_event event) (machine_of n s)) t) }
    ensures leaves_well_formed { let t = lent full state.new policy.new prio.new cpu.new slice.new mask.new rows.new counts.new flags.new online.new log.new in
        (answer_of result.answer ≡ 0 → checked n result.«record» t ≡ 0) }
{
    let mut record = record;
    let answer = event_lent(
        n,
        full,
        state,
        policy,
        prio,
        cpu,
        slice,
        mask,
        rows,
        counts,
        flags,
        online,
        log,
        &mut record,
        event,
    );
    Outcome { answer, record }
}

// The same of a record that is lent.
pub fn event_lent(
    n: usize,
    full: u32,
    state: &mut [u8],
    policy: &mut [u8],
    prio: &mut [u8],
    cpu: &mut [u8],
    slice: &mut [u16],
    mask: &mut [u64],
    rows: &mut [u16],
    counts: &mut [u16],
    flags: &mut [u8],
    online: &mut u64,
    log: &mut [u16],
    record: &mut Record,
    event: Event,
) -> Result<u32, Refusal>
    ensures as_ruled { let s = lent full state.old policy.old prio.old cpu.old slice.old mask.old rows.old counts.old flags.old online.old log.old in
        let t = lent full state.new policy.new prio.new cpu.new slice.new mask.new rows.new counts.new flags.new online.new log.new in
        result_of (answer_of result) (moves_of result) «record».new t ≡ handled n «record».old s (as_event event) }
    ensures demand3_holds { let s = lent full state.old policy.old prio.old cpu.old slice.old mask.old rows.old counts.old flags.old online.old log.old in
        let t = lent full state.new policy.new prio.new cpu.new slice.new mask.new rows.new counts.new flags.new online.new log.new in
        (answer_of result ≡ 0 → LentDemand3 n (moves_of result) (effect (as_event event) (machine_of n s)) t) }
    ensures leaves_well_formed { let t = lent full state.new policy.new prio.new cpu.new slice.new mask.new rows.new counts.new flags.new online.new log.new in
        (answer_of result ≡ 0 → checked n «record».new t ≡ 0) }
{
    check_lent(
        n, full, state, policy, prio, cpu, slice, mask, rows, counts, flags, online, log, record,
    )?;
    handle(
        false, // not known: the check does not say whether the tables are settled
        n,
        state,
        policy,
        prio,
        cpu,
        slice,
        mask,
        rows,
        counts,
        flags,
        online,
        log,
        &mut record.masks,
        &mut record.counts,
        &mut record.words,
        &mut record.levels,
        full as u16,
        event,
    )
}
