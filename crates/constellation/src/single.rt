// One label to its point and one point to its label, by tables that are held in numbers. Many go by `map` and `demap`, whose steps the
// compiler takes eight at a time; alone, a label or a point takes fewer steps here.
ghost use Rattle.std.specs.Prelude.{◌≡◌, ◌+◌, ◌*◌, ◌/◌, ◌%◌, ◌^◌, ◌<◌, ◌≤◌};
ghost use Rattle.std.specs.Int.Bits.{bit_xor};
ghost use Rattle.std.specs.Option.{option_map};
ghost use Rattle.g9932.specs.Bits.{bits as lowest_bits, num};
ghost use Rattle.g9932.specs.Sizes.{point};
ghost use Rattle.g9932.specs.Points.{point_of, label_of};
ghost use Rattle.constellation.specs.Widened.{plain_pairs, top_four, widened_label, x_bits, y_bits, interleaved};
ghost use Rattle.constellation.specs.Reading.{NarrowedWord, own_label, top_six, in_grid};

use super::coordinate_of;
use super::demap::axis_bits;
use g9932::Point;

// Tables held in numbers, an entry in four bits. By the top five bits of a label (Table 10-3): the exclusive or of its top
// three bits with Xc Yc Xd Yd, Xc and Yc complemented; the first sixteen entries and the others.
const WIDEN_LOW: u64 = 0x4444_8888_cccc;

const WIDEN_HIGH: u64 = 0x66cc_4141_d8d8_00aa;

// The same by Xc Yc Xd Yd.
const NARROW: u64 = 0x0a8c_c08d_1400_0460;

// The top six bits of the words of labels, a bit for each six: an even b, b = 1, b = 3, an odd b from 5. The words of up to
// three bits have four bits, and zeros below them.
const EVEN_GRID: u64 = 0x000f_00f0_0f00_f000;

const ONE_GRID: u64 = 0x0001_0000_0000_1000;

const THREE_GRID: u64 = 0x0011_1010_0101_1100;

const ODD_GRID: u64 = 0x035f_30fa_5f0c_fac0;

// How many pairs of plain bits stand below the three top bits of a label.
fn plain_pairs(b: u8) -> u32
    ensures { result ≡ plain_pairs b }
{
    u32::from(b / 2).saturating_sub(1)
}

// What widens the top three bits, by the top five.
fn widening(q: u32) -> u32
    requires { q < 32 }
    ensures { result ≡ bit_xor (q / 4) (top_four q) }
{
    let table = if q < 16 { WIDEN_LOW } else { WIDEN_HIGH };
    ((table >> (4 * (q % 16))) % 16) as u32
}

// The word of a label with k pairs, one at least: the bits of X and Y in turn.
fn widened_label(k: u32, label: u32) -> u32
    requires { (1 ≤ k) × (k ≤ 6) × (label < 2 ^ (2 * k + 3)) }
    ensures { result ≡ widened_label k label }
{
    label ^ (widening(label >> (2 * k - 2)) << (2 * k))
}

// The bits of X, in the upper half, and those of Y.
fn deinterleave(word: u32) -> u32
    requires { word < 65536 }
    ensures { result ≡ 65536 * x_bits word + y_bits word }
{
    let ones = (word | (word << 15)) & 0x5555_5555;
    let twos = (ones | (ones >> 1)) & 0x3333_3333;
    let fours = (twos | (twos >> 2)) & 0x0f0f_0f0f;
    (fours | (fours >> 4)) & 0x00ff_00ff
}

// The point of a label of 9 to 15 bits, by the rule. Called by proved code only.
pub fn point_by_rule(b: u8, label: u32) -> Point
    requires { (9 ≤ b) × (b ≤ 15) × (label < 2 ^ b) }
    ensures { point result.x result.y ≡ point_of b (lowest_bits b label) }
{
    let k = plain_pairs(b);
    let m = 1u16 << k;
    let both = deinterleave(widened_label(k, label));
    Point {
        x: coordinate_of(m, (both / 65536) as u16),
        y: coordinate_of(m, (both % 65536) as u16),
    }
}

// The word whose bits of X and Y these are.
fn interleave(x: u32, y: u32) -> u32
    requires { (x < 256) × (y < 256) }
    ensures { result ≡ num (interleaved (lowest_bits 8 x) (lowest_bits 8 y)) }
{
    let halves = 65536 * x + y;
    let fours = (halves | (halves << 4)) & 0x0f0f_0f0f;
    let twos = (fours | (fours << 2)) & 0x3333_3333;
    let ones = (twos | (twos << 1)) & 0x5555_5555;
    (ones | (ones >> 15)) & 0xffff
}

// The label with k pairs whose word this is, if it is the word of one; its top six bits are at hand.
fn narrowed_word(k: u32, word: u32, six: u32) -> u32
    requires { (k ≤ 6) × (six < 64) × (six ≡ top_six k word) }
    ensures { NarrowedWord k word result }
{
    let narrowing = ((NARROW >> (4 * (six / 4))) % 16) as u32;
    word ^ (narrowing << (2 * k))
}

// The label of b bits, from its mapping label (specs/Widened).
fn own_label(b: u8, label: u32) -> u32
    ensures { result ≡ own_label b label }
{
    if b < 2 {
        return label % 2;
    }
    label
}

// Whether the word of a label of b bits has these top six bits.
fn in_grid(b: u8, six: u32) -> bool
    requires { (1 ≤ b) × (six < 64) × (b < 4 → six % 4 ≡ 0) }
    ensures { result ≡ in_grid b six }
{
    if b % 2 == 0 {
        return (EVEN_GRID >> six) % 2 == 1;
    }
    if b == 1 {
        return (ONE_GRID >> six) % 2 == 1;
    }
    if b == 3 {
        return (THREE_GRID >> six) % 2 == 1;
    }
    (ODD_GRID >> six) % 2 == 1
}

// The label of a point, where the constellation of b bits has the point. Called by proved code only.
pub fn label_of(b: u8, p: Point) -> Option<u32>
    requires { (1 ≤ b) × (b ≤ 15) }
    ensures { result ≡ option_map num (label_of b (point p.x p.y)) }
{
    let k = plain_pairs(b);
    let m = 1u16 << k;
    let ex = axis_bits(m, p.x);
    let ey = axis_bits(m, p.y);
    let own = Point {
        x: coordinate_of(m, ex),
        y: coordinate_of(m, ey),
    };
    if own != p {
        return None;
    }
    let word = interleave(u32::from(ex), u32::from(ey));
    let six = (4 * word) >> (2 * k);
    in_grid(b, six).then_some(own_label(b, narrowed_word(k, word, six)))
}
