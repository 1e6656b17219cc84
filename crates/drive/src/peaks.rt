// The peak of the numbers of a symbol, carried from place to place.
ghost use Rattle.drive.specs.Peaks.{LargerOf, Raises, CarryNeeds, Carries, TellsAbove};

use g9932::{Peak, Place};

// The larger size of two numbers.
fn larger_of(x: f32, y: f32) -> f32
    ensures { LargerOf x y result }
{
    x.abs().max(y.abs())
}

// The peak after a place: the first of several that have it stays.
fn raised(peak: Peak, x: f32, y: f32, place: usize) -> Peak
    ensures { Raises peak x y place result }
{
    let size = larger_of(x, y);
    if peak.size < size {
        return Peak {
            size,
            place: Place(place),
        };
    }
    peak
}

// The peak after all places of a block that begins at place `from`.
fn carry(peak: Peak, xs: &[f32], ys: &[f32], from: usize) -> Peak
    requires { CarryNeeds xs.now ys.now from }
    ensures { Carries peak xs.now ys.now from result }
{
    let mut peak = peak;
    for i in 0..xs.len() {
        peak = raised(peak, xs[i], ys[i], from + i);
    }
    peak
}

// Whether some number is larger in size: it, or its negative, is larger. The loop does the same at every place, so that the compiler takes
// several at a time; `abs` would add a test.
fn some_above(xs: &[f32], ys: &[f32], size: f32) -> bool
    requires { CarryNeeds xs.now ys.now 0 }
    ensures { TellsAbove xs.now ys.now size result }
{
    let mut above = false;
    for i in 0..xs.len() {
        let x = xs[i];
        let y = ys[i];
        above |= (size < x) | (size < -x) | (size < y) | (size < -y);
    }
    above
}

// The peak after a block that begins at place `from`: most blocks have no number that is larger, and are passed over. Called by proved
// code only.
pub fn peak_after(peak: Peak, xs: &[f32], ys: &[f32], from: usize) -> Peak
    requires { CarryNeeds xs.now ys.now from }
    ensures { Carries peak xs.now ys.now from result }
{
    if some_above(xs, ys, peak.size) {
        return carry(peak, xs, ys, from);
    }
    peak
}
