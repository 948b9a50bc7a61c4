// The events of a recording, a batch after the other, on a machine that is ready for them.
#![tactic(auto)]

ghost use Rattle.std.specs.Prelude.{◌≡◌};
ghost use Rattle.lenttables.specs.Lent.{lent};
ghost use Rattle.recording.specs.Reading.{most_events, reading};
ghost use Rattle.recording.specs.Replay.{run, runs};
ghost use Rattle.playing.specs.Ready.{Ready};

use batch::run;
use cpupri::record::{CPUS, Record};
use decoding::batch::fill;
use recording::{Course, Ending, RECORDS};

// How and where the recording ends, and what the replay has come to.
#[derive(Clone, Copy)]
pub struct Passage {
    pub ending: Ending,
    pub place: usize,
    pub course: Course,
}

// All events behind the first record, which ends at this place.
pub fn pass(
    bytes: &[u8],
    from: usize,
    n: usize,
    state: &mut [u8],
    policy: &mut [u8],
    prio: &mut [u8],
    cpu: &mut [u8],
    slice: &mut [u16],
    mask: &mut [u64],
    rows: &mut [u16],
    counts: &mut [u16],
    flags: &mut [u8],
    online: &mut u64,
    log: &mut [u16],
    record: &mut Record,
    times: &mut [u64; CPUS],
    t: Course,
) -> Passage
    requires { let s = lent t.full state.old policy.old prio.old cpu.old slice.old mask.old rows.old counts.old flags.old online.old log.old in
        Ready n most_events (run «record».old s times.old t.moves t.refused t.last) }
    ensures replays { let s = lent t.full state.old policy.old prio.old cpu.old slice.old mask.old rows.old counts.old flags.old online.old log.old in
        let v = lent result.course.full state.new policy.new prio.new cpu.new slice.new mask.new rows.new counts.new flags.new online.new log.new in
        let x = reading from bytes.now in
        run «record».new v times.new result.course.moves result.course.refused result.course.last
        ≡ runs n x.events (run «record».old s times.old t.moves t.refused t.last) }
    ensures ending_is { result.ending ≡ (reading from bytes.now).ending }
    ensures place_is { result.place ≡ (reading from bytes.now).place }
{
    let mut place = from;
    let mut room = RECORDS - 1;
    let mut course = t;
    // batches until one ends: their number is not known before
    loop {
        let read = fill(bytes, place, room);
        let events = &read.events[..read.count];
        course = run(
            events, n, state, policy, prio, cpu, slice, mask, rows, counts, flags, online, log,
            record, times, course,
        );
        place = read.place;
        match read.ending {
            Some(ending) => {
                return Passage {
                    ending,
                    place,
                    course,
                };
            }
            None => room -= read.count,
        }
    }
}
