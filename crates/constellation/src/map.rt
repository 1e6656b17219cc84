// Points of many labels of 9 bits or more, by the rule. Plain arithmetic on sixteen bits, the same steps for every bit count: a loop over
// it takes eight tones at a time, and may give it tones of fewer bits too, of which it tells nothing.
ghost use Rattle.std.specs.Prelude.{◌≡◌, ◌*◌, ◌<◌, ◌≤◌};
ghost use Rattle.g9932.specs.Sizes.{point};
ghost use Rattle.constellation.specs.Widened.{top_four, y_bits};
ghost use Rattle.constellation.specs.MapByLayout.{Mappable, MapsByRule, lifted_label, widened_lifted, scaled_coordinate};

use super::coordinate_of;
use g9932::Point;

// A label with its top bit in bit 15. c is 2 to the (6 less the pairs).
fn lifted_label(c: u16, label: u16) -> u16
    requires { (c ≤ 64) × (lifted_label (c * c) label < 65536) }
    ensures { result ≡ lifted_label (c * c) label }
{
    2 * (label * (c * c))
}

// Table 10-3 by the top five bits, in turn: Xc Yc Xd Yd, Xc and Yc complemented. A label whose top bit is 1 lies further out in X where
// the next two bits are equal, else in Y.
fn top_four(q: u16) -> u16
    requires { q < 32 }
    ensures { result ≡ top_four q }
{
    let a = (q >> 3) & 1;
    let b = (q >> 2) & 1;
    let c = (q >> 1) & 1;
    let d = q & 1;
    let differ = a ^ b;
    let outer_x = (q >> 4) & (differ ^ 1);
    let outer_y = (q >> 4) & differ;
    let xc = (a ^ 1) ^ (outer_x & (a ^ c));
    let xd = a ^ (outer_x & ((a ^ c) ^ 1));
    let yc = (b ^ 1) ^ (outer_y & (b ^ d));
    let yd = b ^ (outer_y & ((b ^ d) ^ 1));
    ((xc << 3) | (yc << 2)) | ((xd << 1) | yd)
}

// The word of a lifted label: its bits of X and Y in turn, with the top one in bit 15.
fn widened_lifted(a: u16) -> u16
    ensures { result ≡ widened_lifted a }
{
    4096 * top_four(a / 2048) + a / 2 % 4096
}

// The bits of Y in a word; half a word gives those of X.
fn evens(word: u16) -> u16
    ensures { result ≡ y_bits word }
{
    let ones = word & 0x5555;
    let twos = (ones | (ones >> 1)) & 0x3333;
    let fours = (twos | (twos >> 2)) & 0x0f0f;
    (fours | (fours >> 4)) & 0x00ff
}

// A coordinate, from its bits at the top of eight; m is 2 to the pairs.
fn scaled_coordinate(e: u16, m: u16) -> i16
    requires { (e < 256) × (1 ≤ m) × (m ≤ 64) }
    ensures { result ≡ scaled_coordinate m e }
{
    coordinate_of(m, (e * m) >> 6)
}

// The point of a label of 9 bits or more, by the layout of its tone. Called by proved code only.
#[inline(always)]
pub fn point_by(layout: u16, label: u16) -> Point
    requires { Mappable layout label }
    ensures { MapsByRule layout label (point result.x result.y) }
{
    let w = widened_lifted(lifted_label(layout % 128, label));
    let m = layout / 256 % 128;
    Point {
        x: scaled_coordinate(evens(w / 2), m),
        y: scaled_coordinate(evens(w), m),
    }
}
