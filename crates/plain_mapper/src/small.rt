// The smallest constellations, written out as document 01 has them: 1 bit, which stands on its own, 2, 3 and 5 bits.
ghost use Rattle.std.specs.Prelude.{true, ◌≡◌, ◌+◌, ◌*◌, ◌^◌, ◌<◌, ◌≤◌, pos, ◌-ℤ◌, get_or};
ghost use Rattle.g9932.specs.Bits.{bits as lowest_bits};
ghost use Rattle.g9932.specs.Sizes.{point, origin};
ghost use Rattle.g9932.specs.Points.{one_points, even_point, three_points, table10_3, odd_point};
ghost use Rattle.g9932.specs.Plain.{smallest as is_smallest, small_point};

use g9932::Point;

// b = 1: 0 is (1, 1), 1 is (-1, -1).
fn one_bit(label: u32) -> Point
    requires { label < 2 }
    ensures { point result.x result.y ≡ get_or one_points label origin }
{
    match label {
        0 => Point { x: 1, y: 1 },
        _ => Point { x: -1, y: -1 }, // 1
    }
}

// b = 2: X is (v1 1), Y is (v0 1).
fn two_bits(label: u32) -> Point
    requires { label < 4 }
    ensures { point result.x result.y ≡ even_point (lowest_bits 2 label) }
{
    match label {
        0 => Point { x: 1, y: 1 },
        1 => Point { x: 1, y: -1 },
        2 => Point { x: -1, y: 1 },
        _ => Point { x: -1, y: -1 }, // 3
    }
}

// b = 3, labels 0 to 7.
fn three_bits(label: u32) -> Point
    requires { label < 8 }
    ensures { point result.x result.y ≡ get_or three_points label origin }
{
    match label {
        0 => Point { x: 1, y: 1 },
        1 => Point { x: 1, y: -1 },
        2 => Point { x: -1, y: 1 },
        3 => Point { x: -1, y: -1 },
        4 => Point { x: -3, y: 1 },
        5 => Point { x: 1, y: 3 },
        6 => Point { x: -1, y: -3 },
        _ => Point { x: 3, y: -1 }, // 7
    }
}

// Table 10-3: Xc Xd Yc Yd by the label of five bits.
fn table_10_3(label: u32) -> u16
    requires { label < 32 }
    ensures { result ≡ get_or table10_3 label 0 }
{
    match label {
        0..=3 => 0b0000,
        4..=7 => 0b0011,
        8..=11 => 0b1100,
        12..=15 => 0b1111,
        16 | 17 => 0b0100,
        18 | 19 => 0b1000,
        20 | 22 => 0b0001,
        21 | 23 => 0b0010,
        24 | 26 => 0b1101,
        25 | 27 => 0b1110,
        28 | 29 => 0b0111,
        _ => 0b1011, // 30, 31
    }
}

// The number that the bits c d v 1 are in two's complement.
fn coordinate(c: u16, d: u16, v: u16) -> i16
    requires { (c ≤ 1) × (d ≤ 1) × (v ≤ 1) }
    ensures { result ≡ pos (4 * d + 2 * v + 1) -ℤ pos (8 * c) }
{
    (4 * d + 2 * v + 1) as i16 - (8 * c) as i16
}

// b = 5: X is (Xc Xd v1 1), Y is (Yc Yd v0 1).
fn five_bits(label: u32) -> Point
    requires { label < 32 }
    ensures { point result.x result.y ≡ odd_point 5 (lowest_bits 5 label) }
{
    let top = table_10_3(label);
    let v = label as u16;
    Point {
        x: coordinate(top / 8, top / 4 % 2, v / 2 % 2),
        y: coordinate(top / 2 % 2, top % 2, v % 2),
    }
}

// Whether b is 2, 3 or 5, or 1 on its own: there the recursion ends.
pub fn smallest(b: u8) -> bool
    ensures { result ≡ is_smallest b }
{
    matches!(b, 1 | 2 | 3 | 5)
}

// The point of a label of the smallest constellations. Called by proved code only.
pub fn small_point(b: u8, label: u32) -> Point
    requires { (is_smallest b ≡ true) × (label < 2 ^ b) }
    ensures { point result.x result.y ≡ small_point b label }
{
    match b {
        1 => one_bit(label),
        2 => two_bits(label),
        3 => three_bits(label),
        _ => five_bits(label), // 5
    }
}
