// Labels of points by a tone's layout (specs/Layouts), in numbers of sixteen bits and with no branch: a loop over many points takes eight
// at a time.
ghost use Rattle.std.specs.Prelude.{◌≡◌, ◌*◌, ◌<◌, pos, ◌+ℤ◌};
ghost use Rattle.g9932.specs.Sizes.{point};
ghost use Rattle.constellation.specs.DemapByLayout.{Power, IsLayout, BitsOf, spread_byte, LiftedWord, TopsBy, LoweredLabel, Demaps};

use super::{coordinate_of, pick};
use g9932::Point;

// The top three bits of a label, and whether the constellation has a word with such top bits. This is no `Option`: with one, and `?`, the
// loop over all places takes 176 instructions for eight of them; as it stands it takes 163.
#[derive(Clone, Copy)]
struct TopBits {
    on: bool,
    three: u16,
}

// A coordinate plus 32,768.
pub fn raised(z: i16) -> u16
    ensures { pos result ≡ z +ℤ pos 32768 }
{
    (i32::from(z) + 32768) as u16
}

// The bits of a coordinate whose sign bit has the weight 4 · m. One that is not on the axis gets bits, too, of another coordinate.
pub(super) fn axis_bits(m: u16, z: i16) -> u16
    requires { Power m }
    ensures { BitsOf (4 * m) z result }
{
    (raised(z) / 2 + 2 * m) & (4 * m - 1)
}

// Eight bits, a zero above each.
fn spread_byte(e: u16) -> u16
    requires { e < 256 }
    ensures { result ≡ spread_byte e }
{
    let fours = (e | (e << 4)) & 0x0f0f;
    let twos = (fours | (fours << 2)) & 0x3333;
    (twos | (twos << 1)) & 0x5555
}

// The word of the bits of X and Y with its top bit in bit 15: c is the weight that moves each half up.
fn lifted_word(c: u16, x: u16, y: u16) -> u16
    requires { (x * c < 256) × (y * c < 256) }
    ensures { LiftedWord c x y result }
{
    2 * spread_byte(x * c) + spread_byte(y * c)
}

// The top three bits of a label, and the grid, by the top six bits of its word: the sign bits of X and Y, complemented, and two more bits
// of each in turn. A coordinate whose first two are alike is an outer one. An odd b from 3 has the inner half of the outer columns and
// rows, without corners; with no pairs, a bit of the other coordinate tells the half.
fn top_of(layout: u16, six: u16) -> TopBits
    requires { six < 64 }
    ensures { TopsBy layout six result.on result.three }
{
    let x_sign = six / 32;
    let y_sign = six / 16 % 2;
    let xd = six / 8 % 2;
    let yd = six / 4 % 2;
    let no_pairs = layout / 256 % 128 == 1;
    let x_near = pick(no_pairs, yd, (six / 2 % 2) ^ 1);
    let y_near = pick(no_pairs, xd ^ 1, (six % 2) ^ 1);
    let x_outer = (x_sign ^ xd) ^ 1;
    let y_outer = (y_sign ^ yd) ^ 1;
    let outer = x_outer | y_outer;
    let high = xd ^ (x_outer & (xd ^ yd));
    let low = yd ^ (y_outer & ((xd ^ yd) ^ 1));
    let far = (x_outer & (x_near ^ x_sign)) | (y_outer & (y_near ^ y_sign));
    let corner = x_outer & y_outer;
    let not_odd = outer & ((layout / 128 % 2) ^ 1);
    let not_one = (layout / 32768) & (high ^ low);
    TopBits {
        on: (far | corner) | (not_odd | not_one) == 0,
        three: (outer << 2) | ((high << 1) | low),
    }
}

// The label of these top bits and of the plain bits of a lifted word: m · m is the weight of the top bits.
fn lowered_label(m: u16, three: u16, word: u16) -> u16
    requires { Power m × (three < 8) }
    ensures { LoweredLabel m three word result }
{
    let lifted = 8192 * three + 2 * (word % 4096);
    ((u32::from(lifted) * u32::from(8 * (m * m))) >> 16) as u16
}

// The label of a point, where a tone of the layout can have the point. A silent tone's layout has both of the bits 7 and 15, and its label
// does not count. Called by proved code only.
#[inline(always)]
pub fn label_by(layout: u16, p: Point) -> Option<u16>
    requires { IsLayout layout }
    ensures { Demaps layout (point p.x p.y) result }
{
    let one = layout / 32768;
    if one & (layout / 128 % 2) == 1 {
        return (p == Point { x: 0, y: 0 }).then_some(0);
    }
    let m = layout / 256 % 128;
    let ex = axis_bits(m, p.x);
    let ey = axis_bits(m, p.y);
    let word = lifted_word(layout % 128, ex, ey);
    let t = top_of(layout, word / 1024);
    let label = lowered_label(m, t.three, word);
    let own = Point {
        x: coordinate_of(m, ex),
        y: coordinate_of(m, ey),
    };
    ((own == p) & t.on).then_some(pick(one == 1, label % 2, label))
}
