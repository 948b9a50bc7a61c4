// Event records, a batch at a time.
ghost use Rattle.decoding.specs.Filled.{Filled};

use super::item::item_at;
use recording::{BATCH, Ending, Event};

// So many events, and the place behind them; and how the recording ends there, or None: the batch is full, and more may come.
#[derive(Clone, Copy)]
pub struct Batch {
    pub events: [Event; BATCH], // the first `count` of them: memory is fixed, there is no heap
    pub count: usize,
    pub place: usize,
    pub ending: Option<Ending>,
}

// The events from a place on, where so many records more may come.
pub fn fill(bytes: &[u8], from: usize, room: usize) -> Batch
    ensures { Filled room from bytes.now result }
{
    let none = Event {
        kind: 0,
        who: 0,
        a: 0,
        b: 0,
        mask: 0,
        stamp: 0,
    };
    let mut events = [none; BATCH];
    let mut place = from;
    for count in 0..BATCH {
        match item_at(bytes, place, room - count) {
            Ok(held) => {
                events[count] = held.event;
                place = held.end;
            }
            Err(ending) => {
                return Batch {
                    events,
                    count,
                    place,
                    ending: Some(ending),
                };
            }
        }
    }
    Batch {
        events,
        count: BATCH,
        place,
        ending: None,
    }
}
