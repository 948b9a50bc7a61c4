// One event record.
ghost use Rattle.std.specs.Prelude.{◌≡◌};
ghost use Rattle.recording.specs.Reading.{item_at};

use super::body::{STAMP, decode, layout_of};
use recording::{Ending, Held};

// What stands at a place, where so many records more may come: an event and the place behind it, or how the recording ends. An
// unknown kind stops the replay before it is seen whether a body is whole.
pub fn item_at(bytes: &[u8], at: usize, room: usize) -> Result<Held, Ending>
    ensures { result ≡ item_at room at bytes.now }
{
    let len = bytes.len();
    if len <= at {
        return Err(Ending::Whole);
    }
    if room == 0 {
        return Err(Ending::Stopped);
    }
    let kind = bytes[at];
    let l = layout_of(kind);
    if l.who == 0 {
        return Err(Ending::Stopped);
    }
    let body = STAMP + l.who + l.a + l.b + l.mask;
    if len - at - 1 < body {
        return Err(Ending::Cut);
    }
    let event = decode(bytes, at + 1, kind, l);
    Ok(Held {
        event,
        end: at + 1 + body,
    })
}
