// Who can move.
ghost use Rattle.std.specs.Prelude.{◌≡◌, ◌*◌, ◌<◌, length, get_or};
ghost use Rattle.rules.specs.Machine.{task_places, cpu_places};
ghost use Rattle.runqueue.specs.Row.{task_in};
ghost use Rattle.hinting.specs.Hinted.{known_if, nobody_in, candidates_after, ruled};

use runqueue::row::{PLACES, task_in};

// Who can move: the task `new`, and tasks that go to the CPU `fallen`.
#[derive(Clone, Copy)]
pub struct Candidates {
    pub fallen: Option<usize>,
    pub new: Option<u16>,
}

impl Candidates {
    // no task
    pub const NOBODY: Candidates = Candidates {
        fallen: None,
        new: None,
    };
}

// What is known of a machine on which these alone can move, if it was settled before. None: nothing is known.
pub fn known(settled: bool, few: Candidates) -> Option<Candidates>
    ensures { result ≡ known_if settled few }
{
    if !settled {
        return None;
    }
    Some(few)
}

// Whether it is known that no task can move.
pub fn nobody(few: Candidates) -> bool
    ensures { result ≡ nobody_in few }
{
    few.fallen.is_none() & few.new.is_none()
}

// Who can move after a step of the task, from the rows before it: who is displaced can, and a CPU that receives a task is no longer fallen.
pub fn after(few: Candidates, rows: &[u16], task: u16, target: usize) -> Candidates
    requires target_lt_cpu_places { target < cpu_places }
    requires task_places_in_bounds { target * task_places < length rows.now }
    ensures { result ≡ candidates_after few task target (ruled (task_in (get_or rows.now (target * task_places) 0))) }
{
    let displaced = task_in(rows[target * PLACES]);
    if few.fallen != Some(target) {
        return Candidates {
            fallen: few.fallen,
            new: displaced, // and nobody else waits newly
        };
    }
    let new = match few.new {
        Some(new) if new != task => few.new,
        _ => displaced,
    };
    Candidates { fallen: None, new }
}
