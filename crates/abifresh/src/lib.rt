// The makers for C, and for what links like C. A slice is a pointer and a length; the record is lent as its four tables and
// written back.
#![tactic(auto)]

ghost use Rattle.std.specs.Prelude.{◌≡◌};
ghost use Rattle.levels.specs.Record.{lent_record};
ghost use Rattle.lenttables.specs.Lent.{lent};
ghost use Rattle.rules.specs.Machine.{default_slice};
ghost use Rattle.rules.specs.Entry.{result_of, handed_back};
ghost use Rattle.lentrecord.specs.Entry.{lent_made};

use lentrecord::{EMPTY, lengths_fit, load, write};
use maker::make_fresh_lent;
use rules::answer::{ACCEPTED, Refusal};
use rules::task::DEFAULT_SLICE;

// A fresh machine of n CPUs, with a full slice of so many ticks, whatever the tables held: 0, or 1 if n, the full slice or
// a length does not fit. `handed` gets the full slice, or 0 on a refusal.
#[unsafe(no_mangle)]
pub extern "C" fn qoriwesh_make_fresh(
    n: usize,
    full: u32,
    state: &mut [u8],
    policy: &mut [u8],
    prio: &mut [u8],
    cpu: &mut [u8],
    slice: &mut [u16],
    mask: &mut [u64],
    rows: &mut [u16],
    counts: &mut [u16],
    flags: &mut [u8],
    online: &mut u64,
    log: &mut [u16],
    level_masks: &mut [u64],
    level_counts: &mut [u8],
    level_words: &mut [u64],
    levels: &mut [u8],
    handed: &mut u32,
) -> u8
    ensures as_ruled { let r = lent_record level_masks.old level_counts.old level_words.old levels.old in
        let q = lent_record level_masks.new level_counts.new level_words.new levels.new in
        let s = lent full state.old policy.old prio.old cpu.old slice.old mask.old rows.old counts.old flags.old online.old log.old in
        let t = lent full state.new policy.new prio.new cpu.new slice.new mask.new rows.new counts.new flags.new online.new log.new in
        result_of result 0 q t ≡ lent_made n r s }
    ensures slice_handed_back { handed.new ≡ handed_back result full }
{
    *handed = 0;
    if !lengths_fit(
        level_masks.len(),
        level_counts.len(),
        level_words.len(),
        levels.len(),
    ) {
        return Refusal::BadSize.number();
    }
    let mut record = EMPTY;
    load(level_masks, level_counts, level_words, levels, &mut record);
    let lent = &mut record;
    let made = make_fresh_lent(
        n, full, state, policy, prio, cpu, slice, mask, rows, counts, flags, online, log, lent,
    );
    write(&record, level_masks, level_counts, level_words, levels);
    match made {
        Ok(ticks) => {
            *handed = ticks;
            ACCEPTED
        }
        Err(refusal) => refusal.number(),
    }
}

// The same, told no full slice: it has 25 ticks.
#[unsafe(no_mangle)]
pub extern "C" fn qoriwesh_make_fresh_default(
    n: usize,
    state: &mut [u8],
    policy: &mut [u8],
    prio: &mut [u8],
    cpu: &mut [u8],
    slice: &mut [u16],
    mask: &mut [u64],
    rows: &mut [u16],
    counts: &mut [u16],
    flags: &mut [u8],
    online: &mut u64,
    log: &mut [u16],
    level_masks: &mut [u64],
    level_counts: &mut [u8],
    level_words: &mut [u64],
    levels: &mut [u8],
    handed: &mut u32,
) -> u8
    ensures as_ruled { let r = lent_record level_masks.old level_counts.old level_words.old levels.old in
        let q = lent_record level_masks.new level_counts.new level_words.new levels.new in
        let s = lent default_slice state.old policy.old prio.old cpu.old slice.old mask.old rows.old counts.old flags.old online.old log.old in
        let t = lent default_slice state.new policy.new prio.new cpu.new slice.new mask.new rows.new counts.new flags.new online.new log.new in
        result_of result 0 q t ≡ lent_made n r s }
    ensures slice_handed_back { handed.new ≡ handed_back result default_slice }
{
    qoriwesh_make_fresh(
        n,
        DEFAULT_SLICE,
        state,
        policy,
        prio,
        cpu,
        slice,
        mask,
        rows,
        counts,
        flags,
        online,
        log,
        level_masks,
        level_counts,
        level_words,
        levels,
        handed,
    )
}
