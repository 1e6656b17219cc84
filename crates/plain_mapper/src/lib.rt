// A second mapper, written the plain way and not tuned: the map for b bits calls itself for b - 2 bits, and so does reading. It
// shares no table, constant or helper with crate constellation, and gives the same answers.
#![tactic(auto)]

pub mod small;

ghost use Rattle.std.specs.Prelude.{true, ◌≡◌, ◌^◌, ◌<◌, ◌≤◌, pos, ◌+ℤ◌, ◌-ℤ◌, ◌*ℤ◌};
ghost use Rattle.std.specs.Int.Signed.{mag, shr_z};
ghost use Rattle.g9932.specs.Bits.{first};
ghost use Rattle.g9932.specs.Sizes.{point, origin};
ghost use Rattle.g9932.specs.Points.{same_point};
ghost use Rattle.g9932.specs.Plain.{smallest as is_smallest, small_point, block_corner, in_block, plain_point, corner_at, corner_of, low_label, of_block, small_label, plain_label};
ghost use Rattle.g9932.specs.Answers.{map_label, read_point, mapped_of, labelled_of};
ghost use Rattle.plain_mapper.specs.Bounds.{Within};

use g9932::{Place, Point, Refusal};
use small::{small_point, smallest};

// 2X - 1: a coordinate of the corner of the block that a point becomes.
fn doubled(z: i16) -> i16
    requires { mag z ≤ 1023 }
    ensures { result ≡ pos 2 *ℤ z -ℤ pos 1 }
{
    2 * z - 1
}

// The next coordinate, 2 on: above, or to the right.
fn next(z: i16) -> i16
    requires { mag z ≤ 4095 }
    ensures { result ≡ z +ℤ pos 2 }
{
    z + 2
}

// The corner of the block that a point becomes.
fn block_corner(p: Point) -> Point
    requires { Within 1023 (point p.x p.y) }
    ensures { point result.x result.y ≡ block_corner (point p.x p.y) }
{
    Point {
        x: doubled(p.x),
        y: doubled(p.y),
    }
}

// The point of label 4n + k, by the corner, which is that of 4n: above it, to its right, diagonal.
fn in_block(k: u32, corner: Point) -> Point
    requires { (k < 4) × Within 4095 (point corner.x corner.y) }
    ensures { point result.x result.y ≡ in_block k (point corner.x corner.y) }
{
    match k {
        0 => corner,
        1 => Point {
            x: corner.x,
            y: next(corner.y),
        },
        2 => Point {
            x: next(corner.x),
            y: corner.y,
        },
        _ => Point {
            x: next(corner.x),
            y: next(corner.y),
        },
    }
}

// The point of a label of b bits, by way of b - 2 bits. The bounds of b and of the label are clauses, not types: they change from call to
// call.
fn plain_point(b: u8, label: u32) -> Point
    requires { (1 ≤ b) × (b ≤ 15) × (label < 2 ^ b) }
    ensures { point result.x result.y ≡ plain_point b label }
{
    if smallest(b) {
        return small_point(b, label);
    }
    let n = plain_point(b - 2, label / 4);
    in_block(label % 4, block_corner(n))
}

// Maps one label: refusal 16.
pub fn map_label(bits: u8, label: u32) -> Result<Point, Refusal>
    ensures { mapped_of result ≡ map_label bits label }
{
    if bits < 1 || 15 < bits || 1u32 << bits <= label {
        return Err(Refusal::Label);
    }
    Ok(plain_point(bits, label))
}

// The label of one of the smallest constellations that has the point, if one has.
fn small_label(b: u8, p: Point) -> Option<u32>
    requires { is_smallest b ≡ true }
    ensures { result ≡ small_label b (point p.x p.y) }
{
    for label in 0..1u32 << b {
        if small_point(b, label) == p {
            return Some(label);
        }
    }
    None
}

// A coordinate of the corner of the block that a point is in: one more than a multiple of four, for it is 2X - 1 of an odd X.
fn corner_at(z: i16) -> i16
    ensures { result ≡ corner_at z }
{
    4 * (z >> 2) + 1
}

// The corner of the block that a point is in.
fn corner_of(p: Point) -> Point
    ensures { point result.x result.y ≡ corner_of (point p.x p.y) }
{
    Point {
        x: corner_at(p.x),
        y: corner_at(p.y),
    }
}

// The X whose corner is 2X - 1.
fn halved(c: i16) -> i16
    requires { mag c ≤ 32766 }
    ensures { result ≡ shr_z (c +ℤ pos 1) 2 }
{
    (c + 1) >> 1
}

// The point that became the block with this corner.
fn of_block(corner: Point) -> Point
    requires { Within 32766 (point corner.x corner.y) }
    ensures { point result.x result.y ≡ of_block (point corner.x corner.y) }
{
    Point {
        x: halved(corner.x),
        y: halved(corner.y),
    }
}

// The place of a label in its block, if any, by how far its point is to the right of the corner and above it.
fn place_in_block(right: i16, up: i16) -> Option<u32>
    ensures { result ≡ first (λ k. same_point (in_block k origin) (point right up)) 4 }
{
    match (right, up) {
        (0, 0) => Some(0),
        (0, 2) => Some(1),
        (2, 0) => Some(2),
        (2, 2) => Some(3),
        _ => None,
    }
}

// The two lowest bits of the label of a point, if any, by the corner of its block.
fn low_label(p: Point, corner: Point) -> Option<u32>
    requires { point corner.x corner.y ≡ corner_of (point p.x p.y) }
    ensures { result ≡ low_label (point p.x p.y) }
{
    place_in_block(p.x - corner.x, p.y - corner.y)
}

// The label of b bits that has a point, if one has, by way of b - 2 bits.
fn plain_label(b: u8, p: Point) -> Option<u32>
    requires { (1 ≤ b) × (b ≤ 15) }
    ensures { result ≡ plain_label b (point p.x p.y) }
{
    if smallest(b) {
        return small_label(b, p);
    }
    let corner = corner_of(p);
    let n = plain_label(b - 2, of_block(corner))?;
    let k = low_label(p, corner)?;
    Some(4 * n + k)
}

// Reads one point: refusal 16 for its bits, then 13.
pub fn read_point(bits: u8, p: Point) -> Result<u32, Refusal>
    ensures { labelled_of result ≡ read_point bits (point p.x p.y) }
{
    if bits < 1 || 15 < bits {
        return Err(Refusal::Label);
    }
    plain_label(bits, p).ok_or(Refusal::Offgrid(Place(0)))
}
