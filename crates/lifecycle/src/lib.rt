// Tasks come, wake, sleep and go: kinds 1 to 4. Each has its checks in the paper's order and then its effect. `who` is the number in
// the event, `named` what stands in the columns of the task that it names.
#![tactic(auto)]

ghost use Rattle.std.specs.Prelude.{◌≡◌, IfOk, cond, ℕ, ◌≤◌, ◌<◌};
ghost use Rattle.bits.specs.Bit.{bit, lowest as lowest_bit};
ghost use Rattle.cpupri.specs.Level.{cpu_places};
ghost use Rattle.rules.specs.Machine.{Machine, asleep, runnable};
ghost use Rattle.rules.specs.Plan.{enter, leave, with_state};
ghost use Rattle.rules.specs.Events.{event, add as add_kind, remove as remove_kind, wake as wake_kind, sleep as sleep_kind};
ghost use Rattle.plans.specs.Decided.{Named, PlannedAs, as_task, as_plan};

use cpupri::find::mask_fits;
use plans::checks::{is_policy, is_priority};
use plans::plan::{Plan, Task};
use rules::answer::Refusal;
use rules::task;
use runqueue::row::PLACES;

// Kind 1: a new task, asleep on the lowest-numbered CPU of its mask, online or not, with a full slice.
pub fn add(
    n: usize,
    full: u16,
    named: Task,
    who: u32,
    a: u32,
    b: u32,
    k: u64,
) -> Result<Plan, Refusal>
    requires { n ≤ cpu_places }
    ensures { (m : Machine) (kind : ℕ) → n ≡ m.n → full ≡ m.full → Named m who named
        → PlannedAs add_kind m (event kind who a b k) result }
{
    let known = is_policy(a);
    let in_range = is_priority(b);
    let fits = mask_fits(n, k);
    let lowest = bits::lowest_bit(k);
    if PLACES <= who as usize {
        return Err(Refusal::BadNumber); // before its state is asked
    }
    if named.state != task::FREE {
        return Err(Refusal::WrongState);
    }
    if !known {
        return Err(Refusal::BadPolicy);
    }
    if !in_range {
        return Err(Refusal::BadValue);
    }
    if !fits {
        return Err(Refusal::BadMask);
    }
    let new = Task {
        state: task::ASLEEP, // until it wakes
        policy: a as u8,
        prio: b as u8,
        cpu: lowest as u8,
        slice: full,
        mask: k,
    };
    Ok(Plan::rewrite(who as u16, new))
}

// Kind 2: a task that is asleep leaves its place free.
pub fn remove(named: Task, who: u32) -> Result<Plan, Refusal>
    ensures { (m : Machine) (kind a b k : ℕ) → Named m who named → PlannedAs remove_kind m (event kind who a b k) result }
{
    if PLACES <= who as usize {
        return Err(Refusal::BadNumber);
    }
    if named.state != task::ASLEEP {
        return Err(Refusal::WrongState);
    }
    let none = Task {
        state: task::FREE,
        policy: 0,
        prio: 0,
        cpu: 0,
        slice: 0,
        mask: 0,
    };
    Ok(Plan::rewrite(who as u16, none))
}

// Kind 3: a sleeper becomes runnable, and enters the row of its CPU or, if that is not allowed or is offline, of the
// lowest-numbered online one that is. Its slice is kept.
pub fn wake(online: u64, named: Task, who: u32) -> Result<Plan, Refusal>
    requires { (m : Machine) × Named m who named }
    ensures decided { ((m : Machine) (kind a b k : ℕ) → online ≡ m.online → Named m who named
        → PlannedAs wake_kind m (event kind who a b k) result) }
    ensures shaped { IfOk result (λ p. ((d : ℕ) × (as_plan p ≡ enter who (with_state runnable (as_task named)) d))) }
{
    if PLACES <= who as usize {
        return Err(Refusal::BadNumber);
    }
    if named.state != task::ASLEEP {
        return Err(Refusal::WrongState); // free, or awake already
    }
    let up = named.mask & online;
    if up == 0 {
        return Err(Refusal::Nowhere);
    }
    let target = wake_cpu(named.cpu as usize, up);
    let becomes = Task {
        state: task::RUNNABLE,
        policy: named.policy,
        prio: named.prio,
        cpu: named.cpu,
        slice: named.slice,
        mask: named.mask,
    };
    Ok(Plan::enter(who as u16, becomes, target))
}

// Kind 4: a runnable task leaves its row. Its CPU and its slice are kept.
pub fn sleep(named: Task, who: u32) -> Result<Plan, Refusal>
    ensures decided { ((m : Machine) (kind a b k : ℕ) → Named m who named → PlannedAs sleep_kind m (event kind who a b k) result) }
    ensures shaped { IfOk result (λ p. as_plan p ≡ leave who named.cpu (with_state asleep (as_task named))) }
{
    if PLACES <= who as usize {
        return Err(Refusal::BadNumber);
    }
    if named.state != task::RUNNABLE {
        return Err(Refusal::WrongState);
    }
    let becomes = Task {
        state: task::ASLEEP,
        policy: named.policy,
        prio: named.prio,
        cpu: named.cpu,
        slice: named.slice,
        mask: named.mask,
    };
    Ok(Plan::leave(who as u16, named.cpu as usize, becomes))
}

// Where a task wakes that may use the CPUs `up`: on its own if that is one of them, else on the lowest-numbered.
fn wake_cpu(cpu: usize, up: u64) -> usize
    requires { cpu < cpu_places }
    ensures { result ≡ cond (bit up cpu) cpu (lowest_bit cpu_places up) }
{
    if bits::test_bit(up, cpu) {
        return cpu;
    }
    bits::lowest_bit(up) as usize
}
