// The body of an event record.
ghost use Rattle.std.specs.Prelude.{◌≡◌, ◌+◌, ◌≤◌, length, drop};
ghost use Rattle.recording.specs.Layout.{layout_of, body_length, decoded};
ghost use Rattle.decoding.specs.Fields.{Fields, widths_of};

use super::number::{four, narrow, wide};
use recording::{Event, Layout};

// Bytes of a stamp.
pub const STAMP: usize = 4;

// The widths by kind; all are 0 where the kind is unknown.
pub fn layout_of(kind: u8) -> Layout
    ensures { result ≡ widths_of (layout_of kind) }
{
    // over the kinds' numbers: the form that the project's scope gives for this place
    match kind {
        1 => widths(2, 1, 1, 8),
        2 | 3 | 4 => widths(2, 0, 0, 0),
        5 => widths(2, 0, 1, 0),
        6 => widths(2, 0, 0, 8),
        7 | 8 | 10 | 11 => widths(1, 0, 0, 0),
        9 => widths(1, 0, 1, 0),
        _ => widths(0, 0, 0, 0),
    }
}

fn widths(who: usize, a: usize, b: usize, mask: usize) -> Layout
    ensures { result ≡ record { who = who; a = a; b = b; mask = mask } }
{
    Layout { who, a, b, mask }
}

// The event in a body that begins at a place and is whole.
pub fn decode(bytes: &[u8], at: usize, kind: u8, l: Layout) -> Event
    requires fields { Fields l }
    requires l_in_bounds { at + body_length l ≤ length bytes.now }
    ensures { result ≡ decoded kind l (drop at bytes.now) }
{
    let who = at + STAMP;
    let a = who + l.who;
    let b = a + l.a;
    let mask = b + l.b;
    Event {
        kind: kind as u32,
        who: narrow(bytes, who, l.who),
        a: narrow(bytes, a, l.a),
        b: narrow(bytes, b, l.b),
        mask: wide(bytes, mask, l.mask),
        stamp: four(bytes, at) as u32,
    }
}
