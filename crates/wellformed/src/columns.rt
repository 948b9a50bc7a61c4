// The pass over the six task columns.
ghost use Rattle.std.specs.Prelude.{◌≡◌, ◌≤◌, length};
ghost use Rattle.rules.specs.Machine.{task_places, cpu_places};
ghost use Rattle.rowcheck.specs.Says.{Says};
ghost use Rattle.wellformed.specs.Passes.{task, ranges_fit, sound_when, Columns};

use cpupri::find::mask_fits;
use rowcheck::marks;
use rowcheck::marks::WORDS;
use rules::task;
use runqueue::row::PLACES;

// Each task in turn: W1 and W2, and a runnable one is in the set of those that stand in rows, on an online CPU that it is allowed.
pub fn columns_fit(
    n: usize,
    full: u32,
    online: u64,
    state: &[u8],
    policy: &[u8],
    prio: &[u8],
    cpu: &[u8],
    slice: &[u16],
    mask: &[u64],
    marks: &[u64; WORDS],
) -> bool
    requires n_le_cpu_places { n ≤ cpu_places }
    requires state_len { (length state.now ≡ task_places) × (length policy.now ≡ task_places) × (length prio.now ≡ task_places) }
    requires cpu_len { (length cpu.now ≡ task_places) × (length slice.now ≡ task_places) × (length mask.now ≡ task_places) }
    ensures { Says result (Columns n full online state.now policy.now prio.now cpu.now slice.now mask.now marks.now) }
{
    for t in 0..PLACES {
        let placed = marks::has(marks, t);
        if !task_fits(
            placed, n, full, online, state[t], policy[t], prio[t], cpu[t], slice[t], mask[t],
        ) {
            return false;
        }
    }
    true
}

// One task; `placed` says that it stands in a row.
fn task_fits(
    placed: bool,
    n: usize,
    full: u32,
    online: u64,
    state: u8,
    policy: u8,
    prio: u8,
    cpu: u8,
    slice: u16,
    mask: u64,
) -> bool
    requires { n ≤ cpu_places }
    ensures { result ≡ sound_when placed n full online (task state policy prio cpu slice mask) }
{
    if state == task::FREE {
        return (policy == 0) & (prio == 0) & (cpu == 0) & (slice == 0) & (mask == 0);
    }
    if !in_range(n, full, policy, prio, cpu, slice, mask) {
        return false;
    }
    (state == task::ASLEEP)
        | ((state == task::RUNNABLE) & placed & bits::test_bit(mask & online, cpu as usize))
}

// W2 of one task.
fn in_range(n: usize, full: u32, policy: u8, prio: u8, cpu: u8, slice: u16, mask: u64) -> bool
    requires { n ≤ cpu_places }
    ensures { result ≡ ranges_fit n full policy prio cpu slice mask }
{
    (task::FIFO <= policy)
        & (policy <= task::RR)
        & (task::LOWEST_PRIORITY <= prio)
        & (prio <= task::HIGHEST_PRIORITY)
        & ((cpu as usize) < n)
        & (1 <= slice)
        & ((slice as u32) <= full)
        & mask_fits(n, mask)
}
