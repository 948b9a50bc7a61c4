// Why something is refused, each refusal with its number.
#![tactic(auto)]

ghost use Rattle.std.specs.Prelude.{◌≡◌};
ghost use Rattle.refusal.specs.Answers.{number_of};

// Why an event, a question to the finder, or what is lent is refused; each with its number.
#[derive(Clone, Copy, PartialEq, Eq)]
pub enum Refusal {
    // N not 1 to 64, or a table of another length
    BadSize = 1,
    // W1 to W6 fail; of the finder, the record is inconsistent in itself
    IllFormed = 2,
    // kind not 1 to 11
    UnknownKind = 3,
    // task number 512 or more, CPU number N or more
    BadNumber = 4,
    // the place is not in the state that the event wants
    WrongState = 5,
    BadPolicy = 6,
    // a priority that is not 1 to 99, ordinary work that is not 0 or 1; of the finder, a level over 101
    BadValue = 7,
    // a mask of 0, or with a bit at N or above
    BadMask = 8,
    EmptyRow = 9,
    // a runnable task, or one that wakes, would have no allowed CPU that is online
    Nowhere = 10,
    // a tick or a yield on an offline CPU; a CPU that is offline or online already
    WrongCpuState = 11,
    // the last online CPU
    LastCpu = 12,
}

impl Refusal {
    pub fn number(self) -> u8
        ensures { result ≡ number_of self }
    {
        self as u8
    }
}
