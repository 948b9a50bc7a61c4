// A task's priority or affinity changes: kinds 5 and 6. Each has its checks in the paper's order and then its effect. `who` is the number
// in the event, `named` what stands in the columns of the task that it names.
#![tactic(auto)]

ghost use Rattle.std.specs.Prelude.{◌≡◌, IfOk, IfSome, ℕ, ◌≤◌};
ghost use Rattle.cpupri.specs.Level.{cpu_places};
ghost use Rattle.rules.specs.Machine.{Machine};
ghost use Rattle.rules.specs.Events.{event, set_priority, set_affinity};
ghost use Rattle.rules.specs.Plan.{with_prio, with_mask};
ghost use Rattle.plans.specs.Decided.{Named, PlannedAs, PlannedOrNotAs, Reorders, Shifts, as_task, as_plan};

use cpupri::find::mask_fits;
use plans::checks::is_priority;
use plans::plan::{Plan, Task};
use rules::answer::Refusal;
use rules::task;
use runqueue::row::PLACES;

// Kind 5. Asleep: the number only. Runnable and unchanged: nothing. Runnable and changed: the task
// leaves its row and stands in it again: raised behind its equals, lowered in front of them.
pub fn set_priority(named: Task, who: u32, b: u32) -> Result<Option<Plan>, Refusal>
    ensures decided { ((m : Machine) (kind a k : ℕ) → Named m who named → PlannedOrNotAs set_priority m (event kind who a b k) result) }
    ensures shaped { IfOk result (λ o. IfSome o (λ p. Reorders who named.cpu (with_prio b (as_task named)) (as_plan p))) }
{
    let in_range = is_priority(b);
    if PLACES <= who as usize {
        return Err(Refusal::BadNumber);
    }
    if named.state == task::FREE {
        return Err(Refusal::WrongState);
    }
    if !in_range {
        return Err(Refusal::BadValue);
    }
    let becomes = Task {
        state: named.state,
        policy: named.policy,
        prio: b as u8,
        cpu: named.cpu,
        slice: named.slice,
        mask: named.mask,
    };
    if named.state != task::RUNNABLE {
        return Ok(Some(Plan::rewrite(who as u16, becomes)));
    }
    if named.prio == becomes.prio {
        return Ok(None);
    }
    let home = named.cpu as usize;
    let lowered = becomes.prio < named.prio;
    Ok(Some(Plan::reorder(who as u16, home, becomes, lowered)))
}

// Kind 6. Asleep, or its CPU still allowed: the mask only. Else the task leaves its row and enters that
// of the lowest-numbered allowed CPU that is online.
pub fn set_affinity(n: usize, online: u64, named: Task, who: u32, k: u64) -> Result<Plan, Refusal>
    requires n_le_cpu_places { n ≤ cpu_places }
    requires named { (m : Machine) × Named m who named }
    ensures decided { ((m : Machine) (kind a b : ℕ) → n ≡ m.n → online ≡ m.online → Named m who named
        → PlannedAs set_affinity m (event kind who a b k) result) }
    ensures shaped { IfOk result (λ p. Shifts who named.cpu (with_mask k (as_task named)) (as_plan p)) }
{
    let fits = mask_fits(n, k);
    let up = k & online;
    let lowest = bits::lowest_bit(up);
    if PLACES <= who as usize {
        return Err(Refusal::BadNumber);
    }
    if named.state == task::FREE {
        return Err(Refusal::WrongState);
    }
    if !fits {
        return Err(Refusal::BadMask);
    }
    let becomes = Task {
        state: named.state,
        policy: named.policy,
        prio: named.prio,
        cpu: named.cpu,
        slice: named.slice,
        mask: k,
    };
    if named.state != task::RUNNABLE {
        return Ok(Plan::rewrite(who as u16, becomes));
    }
    if up == 0 {
        return Err(Refusal::Nowhere);
    }
    let home = named.cpu as usize;
    if bits::test_bit(up, home) {
        return Ok(Plan::rewrite(who as u16, becomes));
    }
    Ok(Plan::shift(who as u16, home, becomes, lowest as usize))
}
