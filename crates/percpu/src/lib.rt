// What happens on a CPU: kinds 7 to 11. Each has its checks in the paper's order and then its effect. `who` is the CPU; a tick and a
// yield have in `runner` the task that runs there, if one does.
#![tactic(auto)]

ghost use Rattle.std.specs.Prelude.{◌≡◌, IfOk, IfSome, IsSomeAnd, false, ℕ, ◌≤◌};
ghost use Rattle.rules.specs.Machine.{Machine, cpu_places};
ghost use Rattle.rules.specs.Events.{event, tick as tick_kind, yield, set_ordinary, take_offline, bring_online};
ghost use Rattle.rules.specs.Plan.{reorder, with_slice};
ghost use Rattle.plans.specs.Decided.{strands, DecidedAs, PlannedAs, PlannedOrNotAs, Requeues, as_task, as_plan};
ghost use Rattle.percpu.specs.Running.{Runs};

use plans::plan::{Decision, Plan, Task};
use rules::answer::Refusal;
use rules::task;

// A task that runs, and what stands in its columns.
#[derive(Clone, Copy)]
pub struct Runner {
    pub task: u16,
    pub columns: Task,
}

// there is ordinary work; 0: there is none
const WORK: u32 = 1;

// Kind 7: an RR task has a tick less; at 0 its slice is full again and it goes behind its equals.
// Nothing happens to a FIFO task or to an empty row.
pub fn tick(
    n: usize,
    online: u64,
    full: u16,
    runner: Option<Runner>,
    who: u32,
) -> Result<Option<Plan>, Refusal>
    requires { n ≤ cpu_places }
    ensures decided { ((m : Machine) (kind a b k : ℕ) → n ≡ m.n → online ≡ m.online → full ≡ m.full → Runs m who runner
        → PlannedOrNotAs tick_kind m (event kind who a b k) result) }
    ensures shaped { IfOk result (λ o. IfSome o (λ p. IsSomeAnd runner
        (λ r. ((v : ℕ) × Requeues r.task who (with_slice v (as_task r.columns)) (as_plan p))))) }
{
    let cpu = who as usize;
    if n <= cpu {
        return Err(Refusal::BadNumber);
    }
    if !bits::test_bit(online, cpu) {
        return Err(Refusal::WrongCpuState);
    }
    let Some(runner) = runner else {
        return Ok(None);
    };
    let columns = runner.columns;
    if columns.policy != task::RR {
        return Ok(None);
    }
    if 1 < columns.slice {
        let less = Task {
            state: columns.state,
            policy: columns.policy,
            prio: columns.prio,
            cpu: columns.cpu,
            slice: columns.slice - 1,
            mask: columns.mask,
        };
        return Ok(Some(Plan::rewrite(runner.task, less)));
    }
    let again = Task {
        state: columns.state,
        policy: columns.policy,
        prio: columns.prio,
        cpu: columns.cpu,
        slice: full,
        mask: columns.mask,
    };
    Ok(Some(Plan::shift(runner.task, cpu, again, cpu)))
}

// Kind 8: the first task goes behind its equals. Its slice is kept. An offline CPU has no task, and is refused as one that is
// offline.
pub fn yield_cpu(n: usize, online: u64, runner: Option<Runner>, who: u32) -> Result<Plan, Refusal>
    requires { n ≤ cpu_places }
    ensures decided { ((m : Machine) (kind a b k : ℕ) → n ≡ m.n → online ≡ m.online → Runs m who runner
        → PlannedAs yield m (event kind who a b k) result) }
    ensures shaped { IfOk result (λ p. IsSomeAnd runner (λ r. as_plan p ≡ reorder false r.task who (as_task r.columns))) }
{
    let cpu = who as usize;
    if n <= cpu {
        return Err(Refusal::BadNumber);
    }
    if !bits::test_bit(online, cpu) {
        return Err(Refusal::WrongCpuState); // and not that its row is empty
    }
    let Some(runner) = runner else {
        return Err(Refusal::EmptyRow);
    };
    Ok(Plan::shift(runner.task, cpu, runner.columns, cpu))
}

// Kind 9: whether a CPU has ordinary work.
pub fn set_ordinary(n: usize, who: u32, b: u32) -> Result<Decision, Refusal>
    ensures { (m : Machine) (kind a k : ℕ) → n ≡ m.n → DecidedAs set_ordinary m (event kind who a b k) result }
{
    let cpu = who as usize;
    if n <= cpu {
        return Err(Refusal::BadNumber);
    }
    if WORK < b {
        return Err(Refusal::BadValue);
    }
    Ok(Decision::Flag { cpu, work: b as u8 })
}

// Kind 10: the CPU goes offline. `stranding` says that one of its tasks would then have nowhere to go.
pub fn take_offline(n: usize, online: u64, stranding: bool, who: u32) -> Result<Decision, Refusal>
    requires { n ≤ cpu_places }
    ensures { (m : Machine) (kind a b k : ℕ) → n ≡ m.n → online ≡ m.online → stranding ≡ strands m who
        → DecidedAs take_offline m (event kind who a b k) result }
{
    let cpu = who as usize;
    if n <= cpu {
        return Err(Refusal::BadNumber);
    }
    if stranding {
        return Err(Refusal::Nowhere);
    }
    if !bits::test_bit(online, cpu) {
        return Err(Refusal::WrongCpuState);
    }
    if bits::clear_bit(online, cpu) == 0 {
        return Err(Refusal::LastCpu);
    }
    Ok(Decision::Offline { cpu })
}

// Kind 11: the CPU is online again.
pub fn bring_online(n: usize, online: u64, who: u32) -> Result<Decision, Refusal>
    requires { n ≤ cpu_places }
    ensures { (m : Machine) (kind a b k : ℕ) → n ≡ m.n → online ≡ m.online
        → DecidedAs bring_online m (event kind who a b k) result }
{
    let cpu = who as usize;
    if n <= cpu {
        return Err(Refusal::BadNumber);
    }
    if bits::test_bit(online, cpu) {
        return Err(Refusal::WrongCpuState);
    }
    Ok(Decision::Online { cpu })
}
