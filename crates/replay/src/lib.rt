// The replay for C, and for what links like C. A slice is a pointer and a length; the record is lent as its four tables and
// written back.
#![tactic(auto)]

ghost use Rattle.std.specs.Prelude.{◌≡◌, length};
ghost use Rattle.levels.specs.Record.{lent_record};
ghost use Rattle.lenttables.specs.Lent.{lent};
ghost use Rattle.replay.specs.Entry.{told, ending_number, lent_replayed};

use cpupri::record::CPUS;
use lentrecord::{EMPTY, lengths_fit, load, write};
use recording::Ending;
use rules::answer::{ACCEPTED, Refusal};

// Replays a recording on a fresh machine, in tables for 64 CPUs: 0, with what is reported, or 1 if a table, also `times`, has another
// length. On 1, and without a good first record, all that is reported is 0 but the ending, and every table is as it was.
#[unsafe(no_mangle)]
pub extern "C" fn qoriwesh_replay(
    bytes: &[u8],
    state: &mut [u8],
    policy: &mut [u8],
    prio: &mut [u8],
    cpu: &mut [u8],
    slice: &mut [u16],
    mask: &mut [u64],
    rows: &mut [u16],
    counts: &mut [u16],
    flags: &mut [u8],
    online: &mut u64,
    log: &mut [u16],
    level_masks: &mut [u64],
    level_counts: &mut [u8],
    level_words: &mut [u64],
    levels: &mut [u8],
    times: &mut [u64],
    ending: &mut u8,
    place: &mut usize,
    n: &mut usize,
    full: &mut u32,
    moves: &mut u64,
    refused: &mut u32,
) -> u8
    ensures { let r = lent_record level_masks.old level_counts.old level_words.old levels.old in
        let q = lent_record level_masks.new level_counts.new level_words.new levels.new in
        let s = lent 0 state.old policy.old prio.old cpu.old slice.old mask.old rows.old counts.old flags.old online.old log.old in
        let t = lent full.new state.new policy.new prio.new cpu.new slice.new mask.new rows.new counts.new flags.new online.new log.new in
        told result ending.new place.new n.new times.new moves.new refused.new q t ≡ lent_replayed bytes.now r s (length times.old) }
{
    times.fill(0);
    *ending = number(Ending::Stopped);
    *place = 0;
    *n = 0;
    *full = 0;
    *moves = 0;
    *refused = 0;
    if !(lengths_fit(
        level_masks.len(),
        level_counts.len(),
        level_words.len(),
        levels.len(),
    ) & (times.len() == CPUS))
    {
        return Refusal::BadSize.number();
    }
    let mut record = EMPTY;
    load(level_masks, level_counts, level_words, levels, &mut record);
    let mut spent = [0u64; CPUS];
    let replayed = night::replay_lent(
        bytes,
        state,
        policy,
        prio,
        cpu,
        slice,
        mask,
        rows,
        counts,
        flags,
        online,
        log,
        &mut record,
        &mut spent,
    );
    times.copy_from_slice(&spent);
    write(&record, level_masks, level_counts, level_words, levels);
    match replayed {
        Ok(report) => {
            *ending = number(report.ending);
            *place = report.place;
            *n = report.n;
            *full = report.full as u32;
            *moves = report.moves;
            *refused = report.refused;
            ACCEPTED
        }
        Err(refusal) => refusal.number(),
    }
}

// How a recording ends, as C has it.
fn number(ending: Ending) -> u8
    ensures { result ≡ ending_number ending }
{
    match ending {
        Ending::Whole => 0,
        Ending::Cut => 1,
        Ending::Stopped => 2,
    }
}
