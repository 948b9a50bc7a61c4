// Tables without a task: every place free, every row empty, no move logged.
#![tactic(auto)]

ghost use Rattle.std.specs.Prelude.{◌≡◌, length, replicate};
ghost use Rattle.rules.specs.Tables.{nothing};

use rules::task::FREE;
use runqueue::row::NOTHING;

// All places free: 0 in all their columns.
pub fn free_tasks(
    state: &mut [u8],
    policy: &mut [u8],
    prio: &mut [u8],
    cpu: &mut [u8],
    slice: &mut [u16],
    mask: &mut [u64],
)
    ensures state_value { state.new ≡ replicate (length state.old) 0 }
    ensures policy_value { policy.new ≡ replicate (length policy.old) 0 }
    ensures prio_value { prio.new ≡ replicate (length prio.old) 0 }
    ensures cpu_value { cpu.new ≡ replicate (length cpu.old) 0 }
    ensures slice_value { slice.new ≡ replicate (length slice.old) 0 }
    ensures mask_value { mask.new ≡ replicate (length mask.old) 0 }
{
    state.fill(FREE);
    policy.fill(0);
    prio.fill(0);
    cpu.fill(0);
    slice.fill(0);
    mask.fill(0);
}

// No task stands in a row, no CPU has ordinary work, and no move is logged.
pub fn empty_rows(rows: &mut [u16], counts: &mut [u16], flags: &mut [u8], log: &mut [u16])
    ensures rows_value { rows.new ≡ replicate (length rows.old) nothing }
    ensures counts_value { counts.new ≡ replicate (length counts.old) 0 }
    ensures flags_value { flags.new ≡ replicate (length flags.old) 0 }
    ensures log_value { log.new ≡ replicate (length log.old) nothing }
{
    rows.fill(NOTHING);
    counts.fill(0);
    flags.fill(0);
    log.fill(NOTHING);
}
