// The ten tables that a caller lends, their lengths, and the full slice. They are parameters of their own wherever they are lent: C lends them one
// by one. Of one struct of references no call could be lent two of which it only reads one (the borrow rules behind a proof do not cover it), and who
// makes it would learn what was written only if each function that takes it promised that its references stay the same ones.
#![tactic(auto)]

ghost use Rattle.std.specs.Prelude.{◌≡◌, ℕ};
ghost use Rattle.rules.specs.Tables.{lengths_fit};
ghost use Rattle.lenttables.specs.Lent.{lent, sizes_fit};

use cpupri::record::CPUS;
use rules::log::LOG;
use rules::task::LONGEST_SLICE;
use runqueue::row::PLACES;

// Whether N is 1 to 64, a full slice 1 to 1,000 ticks, and these are the lengths of the ten tables: the columns 512,
// the rows N times 512, counts and flags N, the log 63 entries of four numbers.
pub fn sizes_fit(
    n: usize,
    full: u32,
    state: usize,
    policy: usize,
    prio: usize,
    cpu: usize,
    slice: usize,
    mask: usize,
    rows: usize,
    counts: usize,
    flags: usize,
    log: usize,
) -> bool
    ensures { result ≡ sizes_fit n full state policy prio cpu slice mask rows counts flags log }
{
    if !((0 < n) & (n <= CPUS)) {
        return false;
    }
    (1 <= full)
        & (full <= LONGEST_SLICE)
        & (state == PLACES)
        & (policy == PLACES)
        & (prio == PLACES)
        & (cpu == PLACES)
        & (slice == PLACES)
        & (mask == PLACES)
        & (rows == PLACES * n)
        & (counts == n)
        & (flags == n)
        & (log == LOG)
}

// The same of tables that are at hand, whatever the online mask.
pub fn lengths_fit(
    n: usize,
    full: u32,
    state: &[u8],
    policy: &[u8],
    prio: &[u8],
    cpu: &[u8],
    slice: &[u16],
    mask: &[u64],
    rows: &[u16],
    counts: &[u16],
    flags: &[u8],
    log: &[u16],
) -> bool
    ensures { (online : ℕ) → result ≡ lengths_fit n (lent full state.now policy.now prio.now cpu.now slice.now mask.now
        rows.now counts.now flags.now online log.now) }
{
    sizes_fit(
        n,
        full,
        state.len(),
        policy.len(),
        prio.len(),
        cpu.len(),
        slice.len(),
        mask.len(),
        rows.len(),
        counts.len(),
        flags.len(),
        log.len(),
    )
}
