// Points as text, as (1,-3).
ghost use Rattle.std.specs.Prelude.{Some, ◌++◌, codes};
ghost use Rattle.std.specs.Fmt.{signed_decimal};

use g9932::{Point, Points};
use std::{fmt, io};

#[derive(Clone, Copy)]
pub struct Written(pub Point);

impl fmt::Display for Written {
    ghost output = { λ p. Some (codes "(" ++ signed_decimal p.0.x ++ codes "," ++ signed_decimal p.0.y ++ codes ")") };

    fn fmt<W: fmt::Write>(&self, f: &mut fmt::Formatter<W>) -> fmt::Result {
        write!(f, "({},{})", self.0.x, self.0.y)
    }
}

// The points of two lists, as many as both have.
pub fn points(rt: &impl Print, points: Points) -> io::Result<()> {
    for (&x, &y) in points.xs.iter().zip(points.ys) {
        print!(rt; " {}", Written(Point { x, y }))?;
    }
    Ok(())
}
