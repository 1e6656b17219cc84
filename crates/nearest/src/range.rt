// 23 RANGE: the coordinates that nearest reading takes.
ghost use Rattle.std.specs.Prelude.{◌≡◌, false, length};
ghost use Rattle.g9932.specs.Bits.{first};
ghost use Rattle.g9932.specs.Nearest.{out_of_range, range_test};
ghost use Rattle.g9932.specs.Sizes.{points_of};

use g9932::Points;

// Whether a coordinate is not −1,023 to 1,023.
fn is_outside(z: i16) -> bool
    ensures { result ≡ out_of_range z }
{
    let r = constellation::demap::raised(z);
    (r < 31745) | (33791 < r)
}

// Whether any place has such a coordinate. There is no early exit: the compiler takes several places at a time.
fn any_outside(points: Points) -> bool
    requires { length points.ys.now ≡ length points.xs.now }
    ensures { result ≡ false → first (range_test (points_of points.entry)) (length points.entry.xs.now) ≡ None }
{
    let Points { xs, ys } = points;
    let mut any = false;
    for i in 0..xs.len() {
        any |= is_outside(xs[i]) | is_outside(ys[i]);
    }
    any
}

// The first place with such a coordinate, one place at a time.
fn search_outside(points: Points) -> Option<usize>
    requires { length points.ys.now ≡ length points.xs.now }
    ensures { result ≡ first (range_test (points_of points.entry)) (length points.entry.xs.now) }
{
    let Points { xs, ys } = points;
    for i in 0..xs.len() {
        if is_outside(xs[i]) | is_outside(ys[i]) {
            return Some(i);
        }
    }
    None
}

// The same; the search is made only where there is something to find. Called by proved code only.
pub fn first_outside(points: Points) -> Option<usize>
    requires { length points.ys.now ≡ length points.xs.now }
    ensures { result ≡ first (range_test (points_of points.entry)) (length points.entry.xs.now) }
{
    if any_outside(points) {
        return search_outside(points);
    }
    None
}
