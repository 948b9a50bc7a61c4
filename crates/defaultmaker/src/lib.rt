// The second maker: a fresh machine for a caller that names no full slice. It stands beside the first for C and for the documents, which ask for two.
#![tactic(auto)]

ghost use Rattle.std.specs.Prelude.{◌≡◌, IfOk};
ghost use Rattle.rules.specs.Answers.{answer_of};
ghost use Rattle.rules.specs.Machine.{default_slice};
ghost use Rattle.rules.specs.Entry.{kept, made};
ghost use Rattle.lenttables.specs.Lent.{lent};

use cpupri::record::Record;
use maker::{Made, make_fresh};
use rules::task::DEFAULT_SLICE;

// `make_fresh` with a full slice of 25 ticks. The record is handed in and back whole, by value: so the project rules it for the public entries.
pub fn make_fresh_default(
    n: usize,
    state: &mut [u8],
    policy: &mut [u8],
    prio: &mut [u8],
    cpu: &mut [u8],
    slice: &mut [u16],
    mask: &mut [u64],
    rows: &mut [u16],
    counts: &mut [u16],
    flags: &mut [u8],
    online: &mut u64,
    log: &mut [u16],
    record: Record,
) -> Made
    ensures as_ruled { let s = lent default_slice state.old policy.old prio.old cpu.old slice.old mask.old rows.old counts.old flags.old online.old log.old in
        let t = lent default_slice state.new policy.new prio.new cpu.new slice.new mask.new rows.new counts.new flags.new online.new log.new in
        kept (answer_of result.answer) result.«record» t ≡ made n «record» s }
    ensures slice_handed_back { IfOk result.answer (λ ticks. ticks ≡ default_slice) }
{
    make_fresh(
        n,
        DEFAULT_SLICE,
        state,
        policy,
        prio,
        cpu,
        slice,
        mask,
        rows,
        counts,
        flags,
        online,
        log,
        record,
    )
}
