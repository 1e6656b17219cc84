// What the labels of a tone cost, and the nearest of a coset, the labels with given two lowest bits. Nothing is searched: the points of a
// coset are odd numbers four apart on each axis, in a rectangle or in the union of two, and the nearest one is found by clamping.
// Coordinates are raised by 1,024, so that they are positive; a raised coordinate of 2 u + 1 has the place u. Coordinates and places have
// sixteen bits and the steps are the same for every tone, so that a loop over many takes several at a time. Proved code alone calls what
// has a `requires`.
#![tactic(auto)]

pub mod given;

ghost use Rattle.std.specs.Prelude.{◌≡◌, ◌+◌, ◌*◌, ◌≤◌, ◌<◌};
ghost use Rattle.constellation.specs.Layouts.{ToneLayout};
ghost use Rattle.g9932.specs.Sizes.{point};
ghost use Rattle.cosets.specs.Grid.{square, NearestPlace, NearestIn, SquareTo, SidesOf, Sided};
ghost use Rattle.cosets.specs.Nearest.{Raised, InRange, IsReceived, NearestBy, CostsFor, SmallCosts};
ghost use Rattle.cosets.specs.Meters.{CostsBy, PointBy, LabelOf, shared_costs, LeastCoset};

use constellation::pick;
use g9932::Point;
pub use given::{Received, Shape};

// The layouts of 1 bit and of 3 bits: see specs/Layouts of constellation.
const ONE: u16 = 0x8140;

const THREE: u16 = 0x01c0;

// A point by its places on the axes, with its squared distance.
#[derive(Clone, Copy)]
pub struct Near {
    pub u: u16,
    pub w: u16,
    pub cost: u32,
}

// The nearest place of a parity among the a on each side of the origin. `Received` and `Shape` have these bounds; here their single numbers
// come in, each with its own as a clause.
fn place(x: u16, a: u16, low: u16) -> u16
    requires { (1 ≤ x) × (x ≤ 2047) × (1 ≤ a) × (a ≤ 256) × (low ≤ 1) }
    ensures { NearestPlace x a low result }
{
    let first = (513 - a - low) / 2;
    let last = (511 + a - low) / 2;
    let free = (x + 1 - 2 * low) / 4;
    2 * free.max(first).min(last) + low
}

// The squared distance of a coordinate from a place. A signed difference is squared with fewer steps than |x − (2 u + 1)|.
fn square_at(x: u16, u: u16) -> u32
    requires { (x ≤ 2047) × (u < 1024) }
    ensures { (result ≡ square x u) × (result ≤ 4194304) }
{
    let d = i32::from(x as i16 - (2 * u + 1) as i16);
    (d * d) as u32
}

// The nearest of a rectangle.
fn in_rectangle(s: Received, ax: u16, ay: u16, v1: u16, v0: u16) -> Near
    requires { (1 ≤ ax) × (ax ≤ 256) × (1 ≤ ay) × (ay ≤ 256) × (v1 ≤ 1) × (v0 ≤ 1) }
    ensures { NearestIn s.x s.y ax ay v1 v0 result }
{
    let u = place(s.x, ax, v1);
    let w = place(s.y, ay, v0);
    Near {
        u,
        w,
        cost: square_at(s.x, u) + square_at(s.y, w),
    }
}

// The shape of a layout's constellation.
fn shape_of(layout: u16) -> Shape
    requires { ToneLayout layout }
    ensures { Sided layout result }
{
    let inner = layout / 256 % 128;
    Shape {
        inner,
        outer: inner + layout / 128 % 2 * ((inner + 1) / 2),
        three: layout == THREE,
    }
}

// The nearest point of the labels with the lowest bits v1 v0.
fn nearest(h: Shape, s: Received, v1: u16, v0: u16) -> Near
    requires { (v1 ≤ 1) × (v0 ≤ 1) }
    ensures { NearestBy h s v1 v0 result }
{
    let p = in_rectangle(s, h.inner, h.outer, v1, v0);
    let q = in_rectangle(s, h.outer, h.inner, v1, v0);
    let across = (h.three & (v1 == v0)) | (!h.three & (q.cost < p.cost));
    if across { q } else { p }
}

// The squared distances of a coordinate from the nearest place of each parity, by the shorter and the longer side.
#[derive(Clone, Copy)]
pub struct Sides {
    pub inner0: u32,
    pub inner1: u32,
    pub outer0: u32,
    pub outer1: u32,
}

// The cost of each number (v1 v0) of a label's two lowest bits; of 1 bit, c0 and c3 are those of its bit, and c1 and c2 mean nothing.
#[derive(Clone, Copy)]
pub struct Costs {
    pub c0: u32,
    pub c1: u32,
    pub c2: u32,
    pub c3: u32,
}

fn square_to(x: u16, a: u16, low: u16) -> u32
    requires { (1 ≤ x) × (x ≤ 2047) × (1 ≤ a) × (a ≤ 256) × (low ≤ 1) }
    ensures { SquareTo x a low result }
{
    square_at(x, place(x, a, low))
}

fn sides_of(x: u16, a: u16, c: u16) -> Sides
    requires { (1 ≤ x) × (x ≤ 2047) × (1 ≤ a) × (a ≤ 256) × (1 ≤ c) × (c ≤ 256) }
    ensures { SidesOf x a c result }
{
    Sides {
        inner0: square_to(x, a, 0),
        inner1: square_to(x, a, 1),
        outer0: square_to(x, c, 0),
        outer1: square_to(x, c, 1),
    }
}

// The costs of the four cosets.
fn coset_costs(h: Shape, s: Received) -> Costs
    ensures { CostsFor h s result }
{
    let x = sides_of(s.x, h.inner, h.outer);
    let y = sides_of(s.y, h.inner, h.outer);
    if h.three {
        return Costs {
            c0: x.outer0 + y.inner0,
            c1: x.inner0 + y.outer1,
            c2: x.inner1 + y.outer0,
            c3: x.outer1 + y.inner1,
        };
    }
    Costs {
        c0: (x.inner0 + y.outer0).min(x.outer0 + y.inner0),
        c1: (x.inner0 + y.outer1).min(x.outer0 + y.inner1),
        c2: (x.inner1 + y.outer0).min(x.outer1 + y.inner0),
        c3: (x.inner1 + y.outer1).min(x.outer1 + y.inner1),
    }
}

// The costs of a tone, by its layout. 1 bit has the shape of 2 bits, and its points are those of their labels 00 and 11: one way serves
// all.
pub fn costs_by(layout: u16, s: Received) -> Costs
    requires { ToneLayout layout }
    ensures { CostsBy layout s result }
{
    coset_costs(shape_of(layout), s)
}

// The costs of an entry that two 1-bit tones share: the first has its lowest bit.
pub fn shared_costs(v: Costs, w: Costs) -> Costs
    requires { (v.c0 ≤ 8388608) × (v.c3 ≤ 8388608) × (w.c0 ≤ 8388608) × (w.c3 ≤ 8388608) }
    ensures { result ≡ shared_costs v w }
{
    Costs {
        c0: v.c0 + w.c0,
        c1: v.c3 + w.c0,
        c2: v.c0 + w.c3,
        c3: v.c3 + w.c3,
    }
}

// A coordinate raised by 1,024.
fn raise(z: i16) -> u16
    requires { InRange z }
    ensures { Raised z result × (1 ≤ result) × (result ≤ 2047) }
{
    constellation::demap::raised(z) - 31744
}

pub fn raise_point(p: Point) -> Received
    requires { InRange p.x × InRange p.y }
    ensures { IsReceived (point p.x p.y) result }
{
    Received {
        x: raise(p.x),
        y: raise(p.y),
    }
}

// The coordinate at a place.
fn coordinate_at(u: u16) -> i16
    requires { u < 1024 }
    ensures { Raised result (2 * u + 1) }
{
    (2 * u + 1) as i16 - 1024
}

// The nearest point of the coset with the two lowest bits `low`.
pub fn point_by(layout: u16, s: Received, low: u16) -> Point
    requires { ToneLayout layout × (low < 4) }
    ensures { PointBy layout s low (point result.x result.y) }
{
    let n = nearest(shape_of(layout), s, low / 2, low % 2);
    Point {
        x: coordinate_at(n.u),
        y: coordinate_at(n.w),
    }
}

// The label of a tone, from that of its point; of 1 bit, the two lowest bits of its entry's label, which has no others.
pub fn label_of(layout: u16, found: u16, low: u16) -> u16
    ensures { LabelOf layout found low result }
{
    if layout == ONE { low } else { found }
}

// A coset, by its two lowest bits, and its cost.
#[derive(Clone, Copy)]
pub struct Coset {
    pub low: u16,
    pub cost: u32,
}

// The nearest coset, the first of several; of 1 bit, the nearest bit. Its two costs stand for 0 and 1, and for 2 and 3 once more, so that
// the steps are the same for every tone. A number is 4 times a cost, plus the two lowest bits: the least has the least cost and tells its
// coset.
pub fn least_coset(layout: u16, c: Costs) -> Coset
    requires { SmallCosts c }
    ensures { LeastCoset layout c result }
{
    let one = layout == ONE;
    let c1 = pick(one, c.c3, c.c1);
    let c2 = pick(one, c.c0, c.c2);
    let m = (4 * c.c0)
        .min(4 * c1 + 1)
        .min((4 * c2 + 2).min(4 * c.c3 + 3));
    Coset {
        low: (m % 4) as u16,
        cost: m / 4,
    }
}
