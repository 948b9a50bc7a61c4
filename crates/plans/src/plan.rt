// What an accepted event does, decided before anything is written.
ghost use Rattle.std.specs.Prelude.{◌≡◌};
ghost use Rattle.rules.specs.Plan.{rewrite as rewriting, enter as entering, leave as leaving, shift as shifting, reorder as reordering};
ghost use Rattle.plans.specs.Decided.{as_task, as_plan};

// A task place: its entry in each of the six columns. A changed one is written out field by field: a copy with one field set goes
// through memory, byte by byte in and by words out.
#[derive(Clone, Copy)]
pub struct Task {
    pub state: u8,
    pub policy: u8,
    pub prio: u8,
    pub cpu: u8,
    pub slice: u16,
    pub mask: u64,
}

// A task leaves the row of a CPU or not, its columns are written, and it enters the row of a CPU or not. Entering sets its CPU besides.
#[derive(Clone, Copy)]
pub struct Plan {
    pub task: u16,
    pub becomes: Task,
    // the CPU whose row it leaves
    pub leaves: Option<usize>,
    pub enters: Option<Entry>,
}

// The CPU whose row a task enters, and whether it goes in front of its equals there.
#[derive(Clone, Copy)]
pub struct Entry {
    pub target: usize,
    pub front: bool,
}

#[derive(Clone, Copy)]
pub enum Decision {
    // no effect of its own
    Nothing,
    Place(Plan),
    // the CPU has ordinary work (1) or none (0)
    Flag { cpu: usize, work: u8 },
    // the CPU goes offline, or is online again
    Offline { cpu: usize },
    Online { cpu: usize },
}

impl Plan {
    // Only the columns.
    pub fn rewrite(task: u16, becomes: Task) -> Plan
        ensures { as_plan result ≡ rewriting task (as_task becomes) }
    {
        Plan {
            task,
            becomes,
            leaves: None,
            enters: None,
        }
    }

    // Into a row, behind its equals.
    pub fn enter(task: u16, becomes: Task, target: usize) -> Plan
        ensures { as_plan result ≡ entering task (as_task becomes) target }
    {
        Plan {
            task,
            becomes,
            leaves: None,
            enters: Some(Entry {
                target,
                front: false,
            }),
        }
    }

    // Out of a row.
    pub fn leave(task: u16, origin: usize, becomes: Task) -> Plan
        ensures { as_plan result ≡ leaving task origin (as_task becomes) }
    {
        Plan {
            task,
            becomes,
            leaves: Some(origin),
            enters: None,
        }
    }

    // From one row to another, or to its place behind its equals in the same one.
    pub fn shift(task: u16, origin: usize, becomes: Task, target: usize) -> Plan
        ensures { as_plan result ≡ shifting task origin (as_task becomes) target }
    {
        Plan {
            task,
            becomes,
            leaves: Some(origin),
            enters: Some(Entry {
                target,
                front: false,
            }),
        }
    }
    // To another place in its row, in front of its equals or behind them.
    pub fn reorder(task: u16, home: usize, becomes: Task, front: bool) -> Plan
        ensures { as_plan result ≡ reordering front task home (as_task becomes) }
    {
        Plan {
            task,
            becomes,
            leaves: Some(home),
            enters: Some(Entry {
                target: home,
                front,
            }),
        }
    }
}
