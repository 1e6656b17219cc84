// Points and gains to the numbers that are driven.
ghost use Rattle.std.specs.Prelude.{◌≡◌};
ghost use Rattle.g9932.specs.Drive.{signal_of, x_of, y_of};
ghost use Rattle.g9932.specs.Sizes.{point};
ghost use Rattle.drive.specs.Numbers.{Drivable, whole_by, PutNeeds, PutsNumbers};

use g9932::{Place, Point, Points, Signal};

// The numbers of a place.
#[derive(Clone, Copy)]
pub struct Numbers {
    pub x: f32,
    pub y: f32,
}

// What goes out at a place. 512 times each number is gain times coordinate, a whole number below 2 to the 24, so that neither the cast nor
// the division rounds. The gain is below 2 to the 15, so it is taken as a signed number of sixteen bits, as the coordinates are. Where a
// tone is driven its gain is above 0 and its coordinates are odd, so that a product of 0 tells a silent one. Called by proved code only.
pub fn signal_of(p: Point, gain: u16) -> Signal
    requires { Drivable gain (point p.x p.y) }
    ensures { result ≡ signal_of (whole_by gain (point p.x p.y)) }
{
    let g = gain as i16 as i32;
    let across = p.x as i32 * g;
    let upward = p.y as i32 * g;
    if across == 0 {
        return Signal::Silent;
    }
    Signal::Driven(across as f32 / 512.0, upward as f32 / 512.0)
}

// Its numbers; 0 where it is silent.
pub fn numbers_of(signal: Signal) -> Numbers
    ensures { (result.x ≡ x_of signal) × (result.y ≡ y_of signal) }
{
    match signal {
        Signal::Driven(x, y) => Numbers { x, y },
        Signal::Silent => Numbers { x: 0.0, y: 0.0 },
    }
}

// The numbers of points, by the gains of their places. The loop does the same at every place, so that the compiler takes several at a time.
// Called by proved code only.
pub fn put_numbers(points: Points, gains: &[u16], xs: &mut [f32], ys: &mut [f32])
    requires { PutNeeds points.xs.now points.ys.now gains.now xs.old ys.old }
    ensures { PutsNumbers points.entry.xs.now points.entry.ys.now gains.now xs.new ys.new }
{
    for i in 0..xs.len() {
        let n = numbers_of(signal_of(points.at(Place(i)), gains[i]));
        xs[i] = n.x;
        ys[i] = n.y;
    }
}
