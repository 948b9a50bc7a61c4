// The inner event for C: for measuring, and for a caller that keeps its tables to itself. It is no public entry: what it
// requires, nothing checks.
#![tactic(auto)]

ghost use Rattle.std.specs.Prelude.{◌≡◌, true};
ghost use Rattle.levels.specs.Record.{lent_record};
ghost use Rattle.rules.specs.Entry.{result_of, checked, handled};
ghost use Rattle.rules.specs.Events.{event as numbers};
ghost use Rattle.laws.specs.Still.{Still};
ghost use Rattle.lenttables.specs.Lent.{lent};

use cpupri::record::{CPUS, LEVELS, WORDS};
use handling::handle;
use plans::event::Event;
use rules::answer::ACCEPTED;

// One event on tables that pass the check, and pass it again afterwards: 0 with the number of moves, or a refusal,
// 3 to 12, with 0 moves, which changes nothing. `settled` says that no task is movable, as on fresh tables and after an
// accepted event.
#[unsafe(no_mangle)]
pub extern "C" fn qoriwesh_inner_event(
    settled: bool,
    n: usize,
    state: &mut [u8],
    policy: &mut [u8],
    prio: &mut [u8],
    cpu: &mut [u8],
    slice: &mut [u16],
    mask: &mut [u64],
    rows: &mut [u16],
    counts: &mut [u16],
    flags: &mut [u8],
    online: &mut u64,
    log: &mut [u16],
    masks: &mut [u64; LEVELS],
    tallies: &mut [u8; LEVELS],
    words: &mut [u64; WORDS],
    levels: &mut [u8; CPUS],
    full: u16,
    kind: u32,
    who: u32,
    a: u32,
    b: u32,
    k: u64,
    moves: &mut u32,
) -> u8
    requires log_value { let r = lent_record masks.old tallies.old words.old levels.old in
        checked n r (lent full state.old policy.old prio.old cpu.old slice.old mask.old rows.old counts.old flags.old online.old log.old) ≡ 0 }
    requires still { settled ≡ true → Still n
        (lent full state.old policy.old prio.old cpu.old slice.old mask.old rows.old counts.old flags.old online.old log.old) }
    ensures as_ruled { let r = lent_record masks.old tallies.old words.old levels.old in
        let q = lent_record masks.new tallies.new words.new levels.new in
        let s = lent full state.old policy.old prio.old cpu.old slice.old mask.old rows.old counts.old flags.old online.old log.old in
        let t = lent full state.new policy.new prio.new cpu.new slice.new mask.new rows.new counts.new flags.new online.new log.new in
        result_of result moves.new q t ≡ handled n r s (numbers kind who a b k) }
    ensures leaves_well_formed { let q = lent_record masks.new tallies.new words.new levels.new in
        let t = lent full state.new policy.new prio.new cpu.new slice.new mask.new rows.new counts.new flags.new online.new log.new in
        checked n q t ≡ 0 }
    ensures settles { let t = lent full state.new policy.new prio.new cpu.new slice.new mask.new rows.new counts.new flags.new online.new log.new in
        (result ≡ 0 → Still n t) }
    ensures stays_settled { let s = lent full state.old policy.old prio.old cpu.old slice.old mask.old rows.old counts.old flags.old online.old log.old in
        let t = lent full state.new policy.new prio.new cpu.new slice.new mask.new rows.new counts.new flags.new online.new log.new in
        (Still n s → Still n t) }
{
    let event = Event {
        kind,
        who,
        a,
        b,
        mask: k,
    };
    let done = handle(
        settled, n, state, policy, prio, cpu, slice, mask, rows, counts, flags, online, log, masks,
        tallies, words, levels, full, event,
    );
    match done {
        Ok(count) => {
            *moves = count;
            ACCEPTED
        }
        Err(refusal) => {
            *moves = 0;
            refusal.number()
        }
    }
}
