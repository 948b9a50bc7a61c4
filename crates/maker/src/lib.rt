// A fresh machine in lent tables.
#![tactic(auto)]

ghost use Rattle.std.specs.Prelude.{◌≡◌, IfOk};
ghost use Rattle.rules.specs.Answers.{answer_of};
ghost use Rattle.rules.specs.Entry.{kept, made};
ghost use Rattle.lenttables.specs.Lent.{lent};

use bits::all_below;
use blank::{empty_rows, free_tasks};
use cpupri::record::Record;
use lenttables::sizes_fit;
use rules::answer::Refusal;

// The full slice handed back, or a refusal; and the record, as it was handed in on a refusal.
#[derive(Clone, Copy)]
pub struct Made {
    pub answer: Result<u32, Refusal>,
    pub record: Record,
}

// All places free, rows empty, flags 0, all CPUs online and idle, every log number 65535, whatever the tables and the record held;
// a full slice has so many ticks. Refused with 1 if N, the full slice or a length does not fit; then nothing changes. The record is handed in and
// back whole, by value: so the project rules it for the public entries.
pub fn make_fresh(
    n: usize,
    full: u32,
    state: &mut [u8],
    policy: &mut [u8],
    prio: &mut [u8],
    cpu: &mut [u8],
    slice: &mut [u16],
    mask: &mut [u64],
    rows: &mut [u16],
    counts: &mut [u16],
    flags: &mut [u8],
    online: &mut u64,
    log: &mut [u16],
    record: Record,
) -> Made
    ensures as_ruled { let s = lent full state.old policy.old prio.old cpu.old slice.old mask.old rows.old counts.old flags.old online.old log.old in
        let t = lent full state.new policy.new prio.new cpu.new slice.new mask.new rows.new counts.new flags.new online.new log.new in
        kept (answer_of result.answer) result.«record» t ≡ made n «record» s }
    ensures slice_handed_back { IfOk result.answer (λ ticks. ticks ≡ full) }
{
    let mut record = record;
    let answer = make_fresh_lent(
        n,
        full,
        state,
        policy,
        prio,
        cpu,
        slice,
        mask,
        rows,
        counts,
        flags,
        online,
        log,
        &mut record,
    );
    Made { answer, record }
}

// The same of a record that is lent.
pub fn make_fresh_lent(
    n: usize,
    full: u32,
    state: &mut [u8],
    policy: &mut [u8],
    prio: &mut [u8],
    cpu: &mut [u8],
    slice: &mut [u16],
    mask: &mut [u64],
    rows: &mut [u16],
    counts: &mut [u16],
    flags: &mut [u8],
    online: &mut u64,
    log: &mut [u16],
    record: &mut Record,
) -> Result<u32, Refusal>
    ensures as_ruled { let s = lent full state.old policy.old prio.old cpu.old slice.old mask.old rows.old counts.old flags.old online.old log.old in
        let t = lent full state.new policy.new prio.new cpu.new slice.new mask.new rows.new counts.new flags.new online.new log.new in
        kept (answer_of result) «record».new t ≡ made n «record».old s }
    ensures slice_handed_back { IfOk result (λ ticks. ticks ≡ full) }
{
    if !sizes_fit(
        n,
        full,
        state.len(),
        policy.len(),
        prio.len(),
        cpu.len(),
        slice.len(),
        mask.len(),
        rows.len(),
        counts.len(),
        flags.len(),
        log.len(),
    ) {
        return Err(Refusal::BadSize);
    }
    free_tasks(state, policy, prio, cpu, slice, mask);
    empty_rows(rows, counts, flags, log);
    *online = all_below(n);
    *record = Record::fresh(n);
    Ok(full)
}
