// What an event is decided from: the task that it names, or that runs on the CPU that it names.
ghost use Rattle.std.specs.Prelude.{◌≡◌, IfSome, option_map, length};
ghost use Rattle.rules.specs.Machine.{Machine, task_places, row};
ghost use Rattle.plans.specs.Decided.{as_task};
ghost use Rattle.percpu.specs.Running.{first_of};
ghost use Rattle.deciding.specs.Subject.{entries, LentRows};

use percpu::Runner;
use plans::plan::Task;
use runqueue::row::PLACES;

// The task's entry in every column; a number that is no task place reads as a free one.
pub fn task_at(
    state: &[u8],
    policy: &[u8],
    prio: &[u8],
    cpu: &[u8],
    slice: &[u16],
    mask: &[u64],
    at: usize,
) -> Task
    requires state_len { length state.now ≡ task_places }
    requires policy_len { length policy.now ≡ task_places }
    requires prio_len { length prio.now ≡ task_places }
    requires cpu_len { length cpu.now ≡ task_places }
    requires slice_len { length slice.now ≡ task_places }
    requires mask_len { length mask.now ≡ task_places }
    ensures { as_task result ≡ entries state.now policy.now prio.now cpu.now slice.now mask.now at }
{
    if PLACES <= at {
        return Task {
            state: 0,
            policy: 0,
            prio: 0,
            cpu: 0,
            slice: 0,
            mask: 0,
        };
    }
    Task {
        state: state[at],
        policy: policy[at],
        prio: prio[at],
        cpu: cpu[at],
        slice: slice[at],
        mask: mask[at],
    }
}

// The task that runs on a CPU; none if no task does, or there is no such CPU.
pub fn running(n: usize, rows: &[u16], counts: &[u16], cpu: usize) -> Option<u16>
    requires { (m : Machine) × LentRows m n rows.now counts.now }
    ensures { (m : Machine) → LentRows m n rows.now counts.now → result ≡ first_of (row m cpu) }
{
    if n <= cpu {
        return None;
    }
    if counts[cpu] == 0 {
        return None;
    }
    Some(rows[cpu * PLACES])
}

// The task that runs, if one does, with what stands in its columns.
pub fn with_columns(
    state: &[u8],
    policy: &[u8],
    prio: &[u8],
    cpu: &[u8],
    slice: &[u16],
    mask: &[u64],
    task: Option<u16>,
) -> Option<Runner>
    requires state_len { length state.now ≡ task_places }
    requires policy_len { length policy.now ≡ task_places }
    requires prio_len { length prio.now ≡ task_places }
    requires cpu_len { length cpu.now ≡ task_places }
    requires slice_len { length slice.now ≡ task_places }
    requires mask_len { length mask.now ≡ task_places }
    ensures task { option_map (λ r. r.task) result ≡ task }
    ensures columns { IfSome result (λ r. as_task r.columns ≡ entries state.now policy.now prio.now cpu.now slice.now mask.now r.task) }
{
    let task = task?;
    Some(Runner {
        task,
        columns: task_at(state, policy, prio, cpu, slice, mask, task as usize),
    })
}
