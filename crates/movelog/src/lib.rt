// The move log: a step, and its entry.
#![tactic(auto)]

ghost use Rattle.std.specs.Prelude.{◌≡◌, ◌*◌, ◌<◌, length};
ghost use Rattle.std.proofs.lemmas.List.Edits.{sets};
ghost use Rattle.rules.specs.Machine.{cpu_places};
ghost use Rattle.rules.specs.Outcome.{entry_numbers, entry_width, log_entries};
ghost use Rattle.rules.specs.Tables.{log_places};
ghost use Rattle.movelog.specs.Entry.{move_by};

use rules::log::ENTRY;

// A step: the mover, the CPU it waits on, its destination, and the level of that before the move.
#[derive(Clone, Copy)]
pub struct Step {
    pub task: u16,
    pub origin: usize,
    pub target: usize,
    pub displaced: u8,
}

// Writes a step's numbers as entry `entry` of the log.
pub fn note(log: &mut [u16], entry: usize, step: Step)
    requires log_len { length log.old ≡ log_places }
    requires lt_log_entries { entry < log_entries }
    requires origin_lt_cpu_places { step.origin < cpu_places }
    requires target_lt_cpu_places { step.target < cpu_places }
    ensures { log.new ≡ sets log.old (entry * entry_width) (entry_numbers (move_by step)) }
{
    let at = entry * ENTRY;
    log[at] = step.task;
    log[at + 1] = step.origin as u16;
    log[at + 2] = step.target as u16;
    log[at + 3] = step.displaced as u16;
}
