// What an event of the rarer kinds does, decided from the columns of the task that it names. Nothing is written.
#![tactic(auto)]

ghost use Rattle.rules.specs.Machine.{Machine};
ghost use Rattle.plans.specs.Decided.{as_event};
ghost use Rattle.deciding.specs.Subject.{Lent, Rare, Decides};

pub mod read;

use plans::event::Event;
use plans::plan::Decision;
use rules::answer::Refusal;

// All kinds but 3 to 8. `stranding`: kind 10 would leave a task nowhere to go.
pub fn decide(
    n: usize,
    online: u64,
    full: u16,
    state: &[u8],
    policy: &[u8],
    prio: &[u8],
    cpu: &[u8],
    slice: &[u16],
    mask: &[u64],
    stranding: bool,
    event: Event,
) -> Result<Decision, Refusal>
    requires rare { Rare event.kind }
    requires lent { (m : Machine)
        × Lent m n online full state.now policy.now prio.now cpu.now slice.now mask.now stranding event.kind event.who }
    ensures { (m : Machine)
        → Lent m n online full state.now policy.now prio.now cpu.now slice.now mask.now stranding event.kind event.who
        → Decides m (as_event event) result }
{
    let task = read::task_at(state, policy, prio, cpu, slice, mask, event.who as usize);
    // over the kinds' numbers, the rest refused: the form that the project's scope gives for this place
    match event.kind {
        1 => Ok(Decision::Place(lifecycle::add(
            n, full, task, event.who, event.a, event.b, event.mask,
        )?)),
        2 => Ok(Decision::Place(lifecycle::remove(task, event.who)?)),
        9 => percpu::set_ordinary(n, event.who, event.b),
        10 => percpu::take_offline(n, online, stranding, event.who),
        11 => percpu::bring_online(n, online, event.who),
        _ => Err(Refusal::UnknownKind),
    }
}
