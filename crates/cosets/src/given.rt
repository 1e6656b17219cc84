// What the steps go by, within the bounds that they can work with. The bounds hold wherever such a value stands.
ghost use Rattle.std.specs.Prelude.{◌≤◌};

// A received point, its coordinates raised by 1,024.
#[derive(Clone, Copy)]
pub struct Received {
    pub x: u16,
    pub y: u16,
    pub ghost bounded: { (1 ≤ x) × (x ≤ 2047) × (1 ≤ y) × (y ≤ 2047) },
}

// Half the shorter and half the longer side of a constellation, in places, and whether it is that of 3 bits.
#[derive(Clone, Copy)]
pub struct Shape {
    pub inner: u16,
    pub outer: u16,
    pub three: bool,
    pub ghost sides: { (1 ≤ inner) × (inner ≤ 64) × (1 ≤ outer) × (outer ≤ 96) },
}
