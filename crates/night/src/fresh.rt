// A recording on a fresh machine of its N CPUs.
ghost use Rattle.std.specs.Prelude.{◌≡◌, true, replicate};
ghost use Rattle.lenttables.specs.Lent.{lent};
ghost use Rattle.rules.specs.Entry.{made};
ghost use Rattle.rules.specs.Machine.{cpu_places};
ghost use Rattle.rules.specs.Tables.{lengths_fit};
ghost use Rattle.recording.specs.Reading.{reading};
ghost use Rattle.recording.specs.Replay.{run, runs, first_stamp, begun};

use cpupri::record::{CPUS, Record};
use maker::make_fresh_lent;
use passage::{Passage, pass};
use recording::Course;

// Makes the tables, which are those of n CPUs, fresh, and replays what stands behind the first record.
pub fn play_fresh(
    bytes: &[u8],
    from: usize,
    n: usize,
    full: u16,
    state: &mut [u8],
    policy: &mut [u8],
    prio: &mut [u8],
    cpu: &mut [u8],
    slice: &mut [u16],
    mask: &mut [u64],
    rows: &mut [u16],
    counts: &mut [u16],
    flags: &mut [u8],
    online: &mut u64,
    log: &mut [u16],
    record: &mut Record,
    times: &mut [u64; CPUS],
) -> Passage
    requires lengths { lengths_fit n
        (lent full state.old policy.old prio.old cpu.old slice.old mask.old rows.old counts.old flags.old online.old log.old) ≡ true }
    requires no_time { times.old ≡ replicate cpu_places 0 }
    ensures replays { let s = lent full state.old policy.old prio.old cpu.old slice.old mask.old rows.old counts.old flags.old online.old log.old in
        let v = lent result.course.full state.new policy.new prio.new cpu.new slice.new mask.new rows.new counts.new flags.new online.new log.new in
        let x = reading from bytes.now in
        run «record».new v times.new result.course.moves result.course.refused result.course.last
        ≡ runs n x.events (begun (made n «record».old s) (first_stamp x.events)) }
    ensures ending_is { result.ending ≡ (reading from bytes.now).ending }
    ensures place_is { result.place ≡ (reading from bytes.now).place }
{
    let ticks = full as u32;
    make_fresh_lent(
        n, ticks, state, policy, prio, cpu, slice, mask, rows, counts, flags, online, log, record,
    )
    .unwrap(); // the lengths fit
    let start = Course {
        full,
        moves: 0,
        refused: 0,
        last: 0, // no CPU has a task before the first event
    };
    pass(
        bytes, from, n, state, policy, prio, cpu, slice, mask, rows, counts, flags, online, log,
        record, times, start,
    )
}
