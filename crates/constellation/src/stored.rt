// Points of 1 to 8 bits from the table, by a tone's layout (specs/Layouts). No step branches: a loop over many tones takes eight at a time,
// but for the look-up itself.
ghost use Rattle.std.specs.Prelude.{◌≡◌};
ghost use Rattle.g9932.specs.Sizes.{point};
ghost use Rattle.constellation.specs.MapByLayout.{Mappable};
ghost use Rattle.constellation.specs.Stored.{stored_point, is_stored, EntryOf, stored_or};

use super::{is_silent, pick};
use g9932::Point;

// The layout of 9 bits: those of fewer are below it, bit 15 left out.
const NINE_BITS: u16 = 0x0888;

// (0, 0) as an entry of the table would hold it.
const ORIGIN: u16 = 0x1010;

// Whether a layout is one of 1 to 8 bits or a silent tone's.
pub fn is_stored(layout: u16) -> bool
    ensures { result ≡ is_stored layout }
{
    layout % 32768 < NINE_BITS
}

// Where the table has the point of a label of 1 to 8 bits: at 2^b - 2 + label. Of other tones some place in the table. Called by proved
// code only.
pub fn entry_of(layout: u16, label: u16) -> u16
    requires { Mappable layout label }
    ensures { EntryOf layout label result }
{
    let m = layout / 256 % 128;
    let four = 4 * (m * m);
    let labels = four + four * (layout / 128 % 2); // 2^b, or 4 for 1 bit
    let first = pick(is_stored(layout), labels - (2 + 2 * (layout / 32768)), 0);
    first + label % 256
}

// The point that an entry holds.
pub fn stored_point(entry: u16) -> Point
    ensures { point result.x result.y ≡ stored_point entry }
{
    Point {
        x: (entry % 256) as i16 - 16,
        y: (entry / 256) as i16 - 16,
    }
}

// The point of an entry, where the table has the layout's points, and (0, 0) for a silent tone; else the point that is given.
pub fn stored_or(layout: u16, entry: u16, p: Point) -> Point
    ensures { point result.x result.y ≡ stored_or layout entry (point p.x p.y) }
{
    let stored = is_stored(layout);
    let q = stored_point(pick(is_silent(layout), ORIGIN, entry));
    Point {
        x: pick(stored, q.x, p.x),
        y: pick(stored, q.y, p.y),
    }
}
