// Constellations of 1 to 15 bits: one label to a point, one point to a label, without a search.
#![tactic(auto)]

pub mod demap;
pub mod map;
pub mod points;
mod single;
pub mod stored;

ghost use Rattle.std.specs.Prelude.{◌≡◌, cond, ◌*◌, ◌^◌, ◌<◌, ◌≤◌, eqb};
ghost use Rattle.g9932.specs.Bits.{bits as lowest_bits};
ghost use Rattle.g9932.specs.Sizes.{point};
ghost use Rattle.g9932.specs.Points.{point_of};
ghost use Rattle.g9932.specs.Answers.{map_label, read_point, mapped_of, labelled_of};
ghost use Rattle.constellation.specs.Widened.{coordinate_of};
ghost use Rattle.constellation.specs.Layouts.{silent_layout, layout_list};

use g9932::{Place, Point, Refusal};

// A silent tone's layout: see specs/Layouts.
const SILENT: u16 = 0x81c0;

// Whether a layout is a silent tone's.
pub fn is_silent(layout: u16) -> bool
    ensures { result ≡ eqb layout silent_layout }
{
    layout == SILENT
}

// The layouts of the bit counts 1 to 15, and for 0 a silent tone's: see specs/Layouts. A caller makes the table once and lends it to its
// loop.
pub fn layout_table() -> [u16; 16]
    ensures { result ≡ layout_list }
{
    [
        SILENT, 0x8140, 0x0140, 0x01c0, 0x0220, 0x02a0, 0x0410, 0x0490, 0x0808, 0x0888, 0x1004,
        0x1084, 0x2002, 0x2082, 0x4001, 0x4081,
    ]
}

// One of two values: the compiler makes no branch of it.
pub fn pick<T: Copy>(first: bool, a: T, b: T) -> T
    ensures { result ≡ cond first a b }
{
    if first { a } else { b }
}

// The coordinate whose bits these are, from their first on; its sign bit, which is complemented, has the weight 4 · m.
fn coordinate_of(m: u16, bits: u16) -> i16
    requires { (1 ≤ m) × (m ≤ 64) × (bits < 256) }
    ensures { result ≡ coordinate_of (4 * m) bits }
{
    (2 * bits + 1) as i16 - (4 * m) as i16
}

// The point of a label of 1 to 8 bits, from the table. The bounds of b and of a label are clauses here and below, not types: whoever maps
// or reads tests them first, in one line.
fn point_from_table(b: u8, label: u32) -> Point
    requires { (1 ≤ b) × (b ≤ 8) × (label < 2 ^ b) }
    ensures { point result.x result.y ≡ point_of b (lowest_bits b label) }
{
    let table = points::point_table();
    stored::stored_point(table[((1u32 << b) - 2 + label) as usize])
}

// The point of a label. Called by proved code only.
pub fn point_of(b: u8, label: u32) -> Point
    requires { (1 ≤ b) × (b ≤ 15) × (label < 2 ^ b) }
    ensures { point result.x result.y ≡ point_of b (lowest_bits b label) }
{
    if b < 9 {
        return point_from_table(b, label);
    }
    single::point_by_rule(b, label)
}

// Maps one label: refusal 16.
pub fn map_label(bits: u8, label: u32) -> Result<Point, Refusal>
    ensures { mapped_of result ≡ map_label bits label }
{
    if bits < 1 || 15 < bits || 1u32 << bits <= label {
        return Err(Refusal::Label);
    }
    Ok(point_of(bits, label))
}

// Reads one point: refusal 16 for its bits, then 13.
pub fn read_point(bits: u8, p: Point) -> Result<u32, Refusal>
    ensures { labelled_of result ≡ read_point bits (point p.x p.y) }
{
    if bits < 1 || 15 < bits {
        return Err(Refusal::Label);
    }
    match single::label_of(bits, p) {
        Some(label) => Ok(label),
        None => Err(Refusal::Offgrid(Place(0))),
    }
}
