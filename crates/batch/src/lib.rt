// A run of event records: a thin function over a slice of structs, which takes each apart and calls the covered function on plain numbers.
#![tactic(auto)]

ghost use Rattle.std.specs.Prelude.{◌≡◌, length};
ghost use Rattle.lenttables.specs.Lent.{lent};
ghost use Rattle.recording.specs.Replay.{run, runs};
ghost use Rattle.playing.specs.Ready.{Ready};

use cpupri::record::{CPUS, Record};
use playing::play;
use recording::{Course, Event};

// The events, on tables that are ready for them.
pub fn run(
    events: &[Event],
    n: usize,
    state: &mut [u8],
    policy: &mut [u8],
    prio: &mut [u8],
    cpu: &mut [u8],
    slice: &mut [u16],
    mask: &mut [u64],
    rows: &mut [u16],
    counts: &mut [u16],
    flags: &mut [u8],
    online: &mut u64,
    log: &mut [u16],
    record: &mut Record,
    times: &mut [u64; CPUS],
    t: Course,
) -> Course
    requires { let s = lent t.full state.old policy.old prio.old cpu.old slice.old mask.old rows.old counts.old flags.old online.old log.old in
        Ready n (length events.now) (run «record».old s times.old t.moves t.refused t.last) }
    ensures { let s = lent t.full state.old policy.old prio.old cpu.old slice.old mask.old rows.old counts.old flags.old online.old log.old in
        let v = lent result.full state.new policy.new prio.new cpu.new slice.new mask.new rows.new counts.new flags.new online.new log.new in
        run «record».new v times.new result.moves result.refused result.last
        ≡ runs n events.now (run «record».old s times.old t.moves t.refused t.last) }
{
    let mut course = t;
    for event in events {
        course = play(
            event.kind,
            event.who,
            event.a,
            event.b,
            event.mask,
            event.stamp,
            n,
            state,
            policy,
            prio,
            cpu,
            slice,
            mask,
            rows,
            counts,
            flags,
            online,
            log,
            record,
            times,
            course,
        );
    }
    course
}
