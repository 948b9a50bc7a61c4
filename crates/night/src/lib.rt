// A recording of a night replayed on a fresh machine, in tables that a caller lends for 64 CPUs.
#![tactic(auto)]

ghost use Rattle.std.specs.Prelude.{◌≡◌, replicate};
ghost use Rattle.levels.specs.declared.record.Record.{Record};
ghost use Rattle.lenttables.specs.Lent.{lent};
ghost use Rattle.rules.specs.Machine.{cpu_places};
ghost use Rattle.rules.specs.Tables.{Tables};
ghost use Rattle.recording.specs.Replay.{unplayed, replayed};
ghost use Rattle.night.specs.Told.{told, told_of};

use cpupri::record::{CPUS, Record};
use decoding::first::{RECORDED_SLICE, first_of};
use fresh::play_fresh;
use lenttables::lengths_fit;
use recording::{Ending, Opening};
use rules::answer::Refusal;
use runqueue::row::PLACES;

pub mod fresh;

// How the recording ends, and where its whole records end; N and the full slice, both 0 without a good first record; the moves and the
// refused events.
#[derive(Clone, Copy)]
pub struct Report {
    pub ending: Ending,
    pub place: usize,
    pub n: usize,
    pub full: u16,
    pub moves: u64,
    pub refused: u32,
}

// The report, or a refusal; and the record, as it was handed in on a refusal.
#[derive(Clone, Copy)]
pub struct Replayed {
    pub report: Result<Report, Refusal>,
    pub record: Record,
}

// Replays a recording. `times` gets the microseconds that each CPU had a real-time task, 0 from N on. Rows, counts and flags beyond
// N stay as they were. Refused with 1 if a table has another length than that for 64 CPUs; then, and without a good first record,
// nothing changes but `times`, which are 0. The record is handed in and back whole, by value: so the project rules it for the public entries.
pub fn replay(
    bytes: &[u8],
    state: &mut [u8],
    policy: &mut [u8],
    prio: &mut [u8],
    cpu: &mut [u8],
    slice: &mut [u16],
    mask: &mut [u64],
    rows: &mut [u16],
    counts: &mut [u16],
    flags: &mut [u8],
    online: &mut u64,
    log: &mut [u16],
    times: &mut [u64; CPUS],
    given: Record,
) -> Replayed
    ensures { let s = lent 0 state.old policy.old prio.old cpu.old slice.old mask.old rows.old counts.old flags.old online.old log.old in
        let t = lent 0 state.new policy.new prio.new cpu.new slice.new mask.new rows.new counts.new flags.new online.new log.new in
        told_of result.report times.new result.«record» t ≡ replayed bytes.now given s }
{
    let mut record = given;
    let report = replay_lent(
        bytes,
        state,
        policy,
        prio,
        cpu,
        slice,
        mask,
        rows,
        counts,
        flags,
        online,
        log,
        &mut record,
        times,
    );
    Replayed { report, record }
}

// The same of a record that is lent.
pub fn replay_lent(
    bytes: &[u8],
    state: &mut [u8],
    policy: &mut [u8],
    prio: &mut [u8],
    cpu: &mut [u8],
    slice: &mut [u16],
    mask: &mut [u64],
    rows: &mut [u16],
    counts: &mut [u16],
    flags: &mut [u8],
    online: &mut u64,
    log: &mut [u16],
    record: &mut Record,
    times: &mut [u64; CPUS],
) -> Result<Report, Refusal>
    ensures { let s = lent 0 state.old policy.old prio.old cpu.old slice.old mask.old rows.old counts.old flags.old online.old log.old in
        let t = lent 0 state.new policy.new prio.new cpu.new slice.new mask.new rows.new counts.new flags.new online.new log.new in
        told_of result times.new «record».new t ≡ replayed bytes.now «record».old s }
{
    *times = [0; CPUS];
    let ticks = RECORDED_SLICE as u32;
    if !lengths_fit(
        CPUS, ticks, state, policy, prio, cpu, slice, mask, rows, counts, flags, log,
    ) {
        return Err(Refusal::BadSize);
    }
    match first_of(bytes) {
        Err(ending) => Ok(unplayed(ending)),
        Ok(Opening { n, full, end }) => {
            let rows = &mut rows[..PLACES * n];
            let counts = &mut counts[..n];
            let flags = &mut flags[..n];
            let played = play_fresh(
                bytes, end, n, full, state, policy, prio, cpu, slice, mask, rows, counts, flags,
                online, log, record, times,
            );
            let course = played.course;
            Ok(Report {
                ending: played.ending,
                place: played.place,
                n,
                full: course.full,
                moves: course.moves,
                refused: course.refused,
            })
        }
    }
}

// Nothing was replayed, whatever the record and the tables are.
fn unplayed(ending: Ending) -> Report
    ensures { (r : Record) (s : Tables) → told result (replicate cpu_places 0) r s ≡ unplayed 0 ending r s }
{
    Report {
        ending,
        place: 0,
        n: 0,
        full: 0,
        moves: 0,
        refused: 0,
    }
}
