// Whether a task would have nowhere to go without its CPU.
#![tactic(auto)]

ghost use Rattle.std.specs.Prelude.{◌≡◌};
ghost use Rattle.rules.specs.Machine.{Machine};
ghost use Rattle.stranding.specs.Stranding.{strands_by, any_stranded, LentMasks, Listed};

use runqueue::row::PLACES;

// a kind is a number where it is told apart, as in `deciding`
const OFFLINE_KIND: u32 = 10;

// Kind 10: whether a task of the CPU is allowed no other that is online. No other kind leaves a task so.
pub fn strands(
    n: usize,
    online: u64,
    mask: &[u64],
    rows: &[u16],
    counts: &[u16],
    kind: u32,
    who: u32,
) -> bool
    requires { (m : Machine) × LentMasks m n online mask.now rows.now counts.now }
    ensures { (m : Machine) → LentMasks m n online mask.now rows.now counts.now → result ≡ strands_by m kind who }
{
    if kind != OFFLINE_KIND {
        return false;
    }
    let cpu = who as usize;
    if n <= cpu {
        return false;
    }
    let start = cpu * PLACES;
    let count = counts[cpu] as usize;
    any_stranded(
        &rows[start..start + count],
        mask,
        bits::clear_bit(online, cpu),
    )
}

// Whether one of these tasks may use no CPU of `up`.
fn any_stranded(tasks: &[u16], mask: &[u64], up: u64) -> bool
    requires { Listed mask.now tasks.now }
    ensures { result ≡ any_stranded mask.now up tasks.now }
{
    for &task in tasks {
        if mask[task as usize] & up == 0 {
            return true;
        }
    }
    false
}
