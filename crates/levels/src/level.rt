// Levels of a CPU, from lowest to highest:
//
//   IDLE       0         nothing to run
//   ORDINARY   1         ordinary work only
//   UNUSED     2         never used
//              3..=101   a real-time task of priority level - 2, 1..=99
//   INVALID    255       no CPU to place tasks on
ghost use Rattle.std.specs.Prelude.{◌≡◌, ◌≤◌};
ghost use Rattle.levels.specs.Level.{level_of};

#[derive(Clone, Copy, PartialEq, Eq)]
pub struct Level {
    pub number: u8,
}

impl Level {
    pub const IDLE: Level = Level { number: 0 };

    pub const ORDINARY: Level = Level { number: 1 };

    pub const UNUSED: Level = Level { number: 2 };

    pub const INVALID: Level = Level { number: 255 };

    // The level of a CPU that runs a real-time task of this priority.
    pub fn of_priority(priority: u8) -> Level
        requires { priority ≤ 99 }
        ensures { result.number ≡ level_of priority }
    {
        Level {
            number: priority + 2,
        }
    }

    // The level of a CPU that runs none, by its ordinary-work flag.
    pub fn of_flag(flag: u8) -> Level
        requires { flag ≤ 1 }
        ensures { result.number ≡ flag }
    {
        if flag == 0 {
            return Level::IDLE;
        }
        Level::ORDINARY
    }
}
