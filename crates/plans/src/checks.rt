// Numbers of an event that a kind tests.
ghost use Rattle.std.specs.Prelude.{◌≡◌, ◌&&◌, ◌||◌, eqb, leb};
ghost use Rattle.rules.specs.Machine.{fifo, rr, lowest_priority, highest_priority};

use rules::task;

pub fn is_policy(a: u32) -> bool
    ensures { result ≡ (eqb a fifo || eqb a rr) }
{
    (a == task::FIFO as u32) | (a == task::RR as u32)
}

pub fn is_priority(b: u32) -> bool
    ensures { result ≡ (leb lowest_priority b && leb b highest_priority) }
{
    (task::LOWEST_PRIORITY as u32 <= b) & (b <= task::HIGHEST_PRIORITY as u32)
}
