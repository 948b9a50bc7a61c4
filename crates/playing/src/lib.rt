// One recorded event on tables that pass the check and are settled: the time since the event before, then the event.
#![tactic(auto)]

ghost use Rattle.std.specs.Prelude.{◌≡◌, ℕ, ◌+◌, ◌^◌, ◌<◌, ◌≤◌, length, if◌then◌else◌, nat_eq, slice_index};
ghost use Rattle.lenttables.specs.Lent.{lent};
ghost use Rattle.rules.specs.Machine.{cpu_places};
ghost use Rattle.recording.specs.Layout.{recorded};
ghost use Rattle.recording.specs.Replay.{run, next, elapsed, accrued};
ghost use Rattle.playing.specs.Ready.{Ready};

use cpupri::record::{CPUS, Record};
use handling::handle;
use plans::event::Event;
use recording::Course;

// An event takes effect at its stamp: the time before it goes to the CPUs that had a task until then. A refused one is counted.
// Event and stamp are plain numbers: a rule of the project.
pub fn play(
    kind: u32,
    who: u32,
    a: u32,
    b: u32,
    k: u64,
    stamp: u32,
    n: usize,
    state: &mut [u8],
    policy: &mut [u8],
    prio: &mut [u8],
    cpu: &mut [u8],
    slice: &mut [u16],
    mask: &mut [u64],
    rows: &mut [u16],
    counts: &mut [u16],
    flags: &mut [u8],
    online: &mut u64,
    log: &mut [u16],
    record: &mut Record,
    times: &mut [u64; CPUS],
    t: Course,
) -> Course
    requires { let s = lent t.full state.old policy.old prio.old cpu.old slice.old mask.old rows.old counts.old flags.old online.old log.old in
        Ready n 1 (run «record».old s times.old t.moves t.refused t.last) }
    ensures { let s = lent t.full state.old policy.old prio.old cpu.old slice.old mask.old rows.old counts.old flags.old online.old log.old in
        let v = lent result.full state.new policy.new prio.new cpu.new slice.new mask.new rows.new counts.new flags.new online.new log.new in
        run «record».new v times.new result.moves result.refused result.last
        ≡ next n (recorded kind who a b k stamp) (run «record».old s times.old t.moves t.refused t.last) }
{
    let event = Event {
        kind,
        who,
        a,
        b,
        mask: k,
    };
    accrue(counts, times, since(t.last, stamp));
    let mut course = Course { last: stamp, ..t };
    match handle(
        true, // from a fresh machine on no task is ever movable between two events
        n,
        state,
        policy,
        prio,
        cpu,
        slice,
        mask,
        rows,
        counts,
        flags,
        online,
        log,
        &mut record.masks,
        &mut record.counts,
        &mut record.words,
        &mut record.levels,
        t.full,
        event,
    ) {
        Ok(moves) => course.moves += moves as u64,
        Err(_) => course.refused += 1,
    }
    course
}

// The time from one stamp to the next. Stamps run past the end to zero.
fn since(last: u32, stamp: u32) -> u64
    ensures { result ≡ elapsed last stamp }
{
    stamp.wrapping_sub(last) as u64
}

// d more for each CPU whose row is not empty.
fn accrue(counts: &[u16], times: &mut [u64; CPUS], d: u64)
    requires counts_len_bound { length counts.now ≤ cpu_places }
    requires times_len { length times.old ≡ cpu_places }
    requires d_bound { d < 2 ^ 32 }
    requires room { (c : ℕ) → slice_index times.old c + 2 ^ 32 < 2 ^ 64 }
    ensures { times.new ≡ accrued d counts.now times.old }
{
    for (c, count) in counts.iter().enumerate() {
        times[c] += share(*count, d);
    }
}

// What a CPU with so many tasks gains of a time.
fn share(count: u16, d: u64) -> u64
    ensures { result ≡ (if nat_eq count 0 then 0 else d) }
{
    if count == 0 { 0 } else { d }
}
