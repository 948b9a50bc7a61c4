// The check, the event and the finder for C, and for what links like C. A slice is a pointer and a length; the record is
// lent as its four tables and written back. Each checks all that it is lent.
#![tactic(auto)]

ghost use Rattle.std.specs.Prelude.{◌≡◌};
ghost use Rattle.levels.specs.Record.{lent_record};
ghost use Rattle.lenttables.specs.Lent.{lent};
ghost use Rattle.rules.specs.Events.{effect, event as numbers};
ghost use Rattle.rules.specs.LentDemand3.{LentDemand3};
ghost use Rattle.rules.specs.Tables.{machine_of};
ghost use Rattle.rules.specs.Entry.{result_of};
ghost use Rattle.lentrecord.specs.Entry.{lent_checked, lent_handled, lent_found, answer};

use checker::check::check_lent;
use cpupri::find::find_in;
use lentrecord::{EMPTY, lengths_fit, load, tell, write};
use machine::event_lent;
use plans::event::Event;
use rules::answer::{ACCEPTED, Refusal};

// 0 for a well-formed machine, 1 if n, the full slice or a length does not fit, 2 if it is not well-formed. Nothing
// is written.
#[unsafe(no_mangle)]
pub extern "C" fn qoriwesh_check(
    n: usize,
    full: u32,
    state: &[u8],
    policy: &[u8],
    prio: &[u8],
    cpu: &[u8],
    slice: &[u16],
    mask: &[u64],
    rows: &[u16],
    counts: &[u16],
    flags: &[u8],
    online: &u64,
    log: &[u16],
    level_masks: &[u64],
    level_counts: &[u8],
    level_words: &[u64],
    levels: &[u8],
) -> u8
    ensures { let r = lent_record level_masks.now level_counts.now level_words.now levels.now in
        result ≡ lent_checked n r (lent full state.now policy.now prio.now cpu.now slice.now mask.now rows.now counts.now flags.now online.now log.now) }
{
    if !lengths_fit(
        level_masks.len(),
        level_counts.len(),
        level_words.len(),
        levels.len(),
    ) {
        return Refusal::BadSize.number();
    }
    let mut record = EMPTY;
    load(level_masks, level_counts, level_words, levels, &mut record);
    let checked = check_lent(
        n, full, state, policy, prio, cpu, slice, mask, rows, counts, flags, online, log, &record,
    );
    match checked {
        Ok(()) => ACCEPTED,
        Err(unfit) => unfit.number(),
    }
}

// One event on any tables: 0 with the number of moves, or a refusal, 1 to 12, with 0 moves, which changes
// nothing.
#[unsafe(no_mangle)]
pub extern "C" fn qoriwesh_event(
    n: usize,
    full: u32,
    state: &mut [u8],
    policy: &mut [u8],
    prio: &mut [u8],
    cpu: &mut [u8],
    slice: &mut [u16],
    mask: &mut [u64],
    rows: &mut [u16],
    counts: &mut [u16],
    flags: &mut [u8],
    online: &mut u64,
    log: &mut [u16],
    level_masks: &mut [u64],
    level_counts: &mut [u8],
    level_words: &mut [u64],
    levels: &mut [u8],
    kind: u32,
    who: u32,
    a: u32,
    b: u32,
    k: u64,
    moves: &mut u32,
) -> u8
    ensures as_ruled { let r = lent_record level_masks.old level_counts.old level_words.old levels.old in
        let q = lent_record level_masks.new level_counts.new level_words.new levels.new in
        let s = lent full state.old policy.old prio.old cpu.old slice.old mask.old rows.old counts.old flags.old online.old log.old in
        let t = lent full state.new policy.new prio.new cpu.new slice.new mask.new rows.new counts.new flags.new online.new log.new in
        let e = numbers kind who a b k in
        result_of result moves.new q t ≡ lent_handled n r s e }
    ensures demand3_holds { let s = lent full state.old policy.old prio.old cpu.old slice.old mask.old rows.old counts.old flags.old online.old log.old in
        let t = lent full state.new policy.new prio.new cpu.new slice.new mask.new rows.new counts.new flags.new online.new log.new in
        let e = numbers kind who a b k in
        (result ≡ 0 → LentDemand3 n moves.new (effect e (machine_of n s)) t) }
    ensures leaves_well_formed { let q = lent_record level_masks.new level_counts.new level_words.new levels.new in
        let t = lent full state.new policy.new prio.new cpu.new slice.new mask.new rows.new counts.new flags.new online.new log.new in
        (result ≡ 0 → lent_checked n q t ≡ 0) }
{
    *moves = 0;
    if !lengths_fit(
        level_masks.len(),
        level_counts.len(),
        level_words.len(),
        levels.len(),
    ) {
        return Refusal::BadSize.number();
    }
    let mut record = EMPTY;
    load(level_masks, level_counts, level_words, levels, &mut record);
    let asked = Event {
        kind,
        who,
        a,
        b,
        mask: k,
    };
    let lent = &mut record;
    let done = event_lent(
        n, full, state, policy, prio, cpu, slice, mask, rows, counts, flags, online, log, lent,
        asked,
    );
    write(&record, level_masks, level_counts, level_words, levels);
    match done {
        Ok(taken) => {
            *moves = taken;
            ACCEPTED
        }
        Err(refusal) => refusal.number(),
    }
}

// The lowest level below `level` that has a CPU of `mask`, and those CPUs: 0 with that level and mask, or with 255 and 0 if there is none;
// a refusal, 1, 2, 7 or 8, has 255 and 0 too. `masks_read` is how many masks were read: one for each level with a CPU below `level`, up to the
// one found; 0 on a refusal.
#[unsafe(no_mangle)]
pub extern "C" fn qoriwesh_find<'a>(
    n: usize,
    level_masks: &'a [u64],
    level_counts: &'a [u8],
    level_words: &'a [u64],
    levels: &'a [u8],
    level: u32,
    mask: u64,
    found_level: &mut u8,
    found_mask: &mut u64,
    masks_read: &mut u32,
) -> u8
    ensures { let r = lent_record level_masks.now level_counts.now level_words.now levels.now in
        answer result found_level.new found_mask.new masks_read.new ≡ lent_found n r level mask }
{
    if !lengths_fit(
        level_masks.len(),
        level_counts.len(),
        level_words.len(),
        levels.len(),
    ) {
        return tell(Err(Refusal::BadSize), found_level, found_mask, masks_read);
    }
    let found = find_in(
        n,
        level_masks,
        level_counts,
        level_words,
        levels,
        level,
        mask,
    );
    tell(found, found_level, found_mask, masks_read)
}
