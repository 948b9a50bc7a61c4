// The check of lent tables: accepted, or refused with 1 or 2.
ghost use Rattle.std.specs.Prelude.{◌≡◌, [], ◌*◌, length};
ghost use Rattle.rules.specs.Answers.{answer_of};
ghost use Rattle.rules.specs.Machine.{task_places};
ghost use Rattle.rules.specs.WellFormed.{Shape};
ghost use Rattle.rules.specs.Tables.{machine_of, tables_fit};
ghost use Rattle.rules.specs.Entry.{checked};
ghost use Rattle.cpupri.specs.Consistent.{consistent};
ghost use Rattle.lenttables.specs.Lent.{lent};

use cpupri::consistent::is_consistent;
use cpupri::find::mask_fits;
use cpupri::record::Record;
use lenttables::lengths_fit;
use rules::answer::Refusal;
use wellformed::columns::columns_fit;
use wellformed::rows::rows_fit;

// Accepted is a well-formed machine. Refused with 1 if N, the full slice or a length does not fit, with 2 if anything that is stored is not as W1 to
// W6 say. Nothing is written. The record is handed in whole, by value: so the project rules it for the public entries.
pub fn check(
    n: usize,
    full: u32,
    state: &[u8],
    policy: &[u8],
    prio: &[u8],
    cpu: &[u8],
    slice: &[u16],
    mask: &[u64],
    rows: &[u16],
    counts: &[u16],
    flags: &[u8],
    online: &u64,
    log: &[u16],
    record: Record,
) -> Result<(), Refusal>
    ensures { let s = lent full state.now policy.now prio.now cpu.now slice.now mask.now rows.now counts.now flags.now online.now log.now in
        answer_of result ≡ checked n «record» s }
{
    check_lent(
        n, full, state, policy, prio, cpu, slice, mask, rows, counts, flags, online, log, &record,
    )
}

// The same of a record that is lent.
pub fn check_lent(
    n: usize,
    full: u32,
    state: &[u8],
    policy: &[u8],
    prio: &[u8],
    cpu: &[u8],
    slice: &[u16],
    mask: &[u64],
    rows: &[u16],
    counts: &[u16],
    flags: &[u8],
    online: &u64,
    log: &[u16],
    record: &Record,
) -> Result<(), Refusal>
    ensures { let s = lent full state.now policy.now prio.now cpu.now slice.now mask.now rows.now counts.now flags.now online.now log.now in
        answer_of result ≡ checked n «record».now s }
{
    if !lengths_fit(
        n, full, state, policy, prio, cpu, slice, mask, rows, counts, flags, log,
    ) {
        return Err(Refusal::BadSize);
    }
    if !tables_fit(
        n, full, state, policy, prio, cpu, slice, mask, rows, counts, flags, *online, record,
    ) {
        return Err(Refusal::IllFormed);
    }
    Ok(())
}

// W1 to W6 of tables that have their lengths, and the online mask; the log may hold anything.
fn tables_fit(
    n: usize,
    full: u32,
    state: &[u8],
    policy: &[u8],
    prio: &[u8],
    cpu: &[u8],
    slice: &[u16],
    mask: &[u64],
    rows: &[u16],
    counts: &[u16],
    flags: &[u8],
    online: u64,
    record: &Record,
) -> bool
    requires shape { Shape (machine_of n (lent full state.now policy.now prio.now cpu.now slice.now mask.now
        rows.now counts.now flags.now online [])) }
    requires rows_len { length rows.now ≡ task_places * n }
    requires counts_len { length counts.now ≡ n }
    ensures { result ≡ tables_fit n «record».now (lent full state.now policy.now prio.now cpu.now slice.now mask.now
        rows.now counts.now flags.now online []) }
{
    if !mask_fits(n, online) {
        return false;
    }
    if !record_fits(n, record) {
        return false;
    }
    let Some(marks) = rows_fit(
        n,
        state,
        prio,
        cpu,
        rows,
        counts,
        flags,
        online,
        &record.levels,
    ) else {
        return false;
    };
    columns_fit(
        n, full, online, state, policy, prio, cpu, slice, mask, &marks,
    )
}

// Whether the record is consistent in itself.
fn record_fits(n: usize, record: &Record) -> bool
    ensures { result ≡ consistent n «record».now }
{
    // as slices, of whose numbers it is known that they fit 64 bits
    let masks = record.masks.as_slice();
    let words = record.words.as_slice();
    is_consistent(n, masks, &record.counts, words, &record.levels)
}
