// The pass over the rows: of each CPU the places in use, the unused ones, the flag and the level.
ghost use Rattle.std.specs.Prelude.{◌≡◌, ℕ, ◌*◌, ◌≤◌, length, cond, ◌<◌, IfSome, MatchOption};
ghost use Rattle.rules.specs.Machine.{task_places, cpu_places};
ghost use Rattle.rowcheck.specs.Placed.{mark};
ghost use Rattle.bits.specs.Bit.{bit};
ghost use Rattle.rules.specs.Machine.{invalid};
ghost use Rattle.wellformed.specs.Passes.{Rows, standings};

use cpupri::level::Level;
use cpupri::record::CPUS;
use rowcheck::marks::WORDS;
use rowcheck::row::row_fits;
use runqueue::row::PLACES;

// Each row in turn, with its CPU's flag and level: the set of the tasks that stand in rows, or None if the rows are not right.
pub fn rows_fit(
    n: usize,
    state: &[u8],
    prio: &[u8],
    cpu: &[u8],
    rows: &[u16],
    counts: &[u16],
    flags: &[u8],
    online: u64,
    levels: &[u8; CPUS],
) -> Option<[u64; WORDS]>
    requires n_le_cpu_places { n ≤ cpu_places }
    requires state_len { (length state.now ≡ task_places) × (length prio.now ≡ task_places) × (length cpu.now ≡ task_places) }
    requires rows_len { (length rows.now ≡ task_places * n) × (length counts.now ≡ n) × (length flags.now ≡ n) }
    ensures right { let fit = Rows n state.now prio.now cpu.now rows.now counts.now flags.now online levels.now in
        MatchOption result (fit → ⊥) (λ marks. fit) }
    ensures placed { IfSome result (λ marks. (u : ℕ) → mark marks u ≡ standings counts.now rows.now n u) }
{
    let mut marks = [0; WORDS];
    for c in 0..n {
        let start = c * PLACES;
        let row = &rows[start..start + PLACES];
        let idle = idle_level(online, c, flags[c]);
        if !row_fits(
            c, row, counts[c], flags[c], idle, levels[c], state, prio, cpu, &mut marks,
        ) {
            return None;
        }
    }
    Some(marks)
}

// The level of a CPU without a task: its flag, or INVALID if it is offline.
fn idle_level(online: u64, c: usize, flag: u8) -> u8
    requires { c < cpu_places }
    ensures { result ≡ cond (bit online c) flag invalid }
{
    if bits::test_bit(online, c) {
        return flag;
    }
    let invalid = Level::INVALID;
    invalid.number
}
