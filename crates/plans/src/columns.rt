// A task's columns in lent tables.
ghost use Rattle.std.specs.Prelude.{◌≡◌, ◌<◌, set};
ghost use Rattle.rules.specs.Machine.{task_places};
ghost use Rattle.plans.specs.Columns.{Sized};

use super::plan::Task;

// The task's entry in every column.
pub fn write(
    state: &mut [u8],
    policy: &mut [u8],
    prio: &mut [u8],
    cpu: &mut [u8],
    slice: &mut [u16],
    mask: &mut [u64],
    at: usize,
    task: Task,
)
    requires at_lt_task_places { at < task_places }
    requires sized { Sized state.old policy.old prio.old cpu.old slice.old mask.old }
    ensures state_value { state.new ≡ set state.old at task.state }
    ensures policy_value { policy.new ≡ set policy.old at task.policy }
    ensures prio_value { prio.new ≡ set prio.old at task.prio }
    ensures cpu_value { cpu.new ≡ set cpu.old at task.cpu }
    ensures slice_value { slice.new ≡ set slice.old at task.slice }
    ensures mask_value { mask.new ≡ set mask.old at task.mask }
{
    state[at] = task.state;
    policy[at] = task.policy;
    prio[at] = task.prio;
    cpu[at] = task.cpu;
    slice[at] = task.slice;
    mask[at] = task.mask;
}
