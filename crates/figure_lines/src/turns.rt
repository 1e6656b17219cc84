// What a turn does: frame byte 0 written and read, with (-X, -Y), (-Y, X) or (Y, -X) for every (X, Y). Where writing is refused, the lists
// stay as they came, and reading them is refused, too: that refusal is printed.
ghost use Rattle.std.specs.Prelude.{◌≡◌, length};
ghost use Rattle.figure_lines.specs.Turned.{Exchanges, TurnsLeft, TurnsRight};

use super::opposites::{put_opposites, turn_half};
use super::{encode, read, turned};
use g9932::{Points, Tables};
use print::frame;
use std::io;

// (Y, X) for every (X, Y), as far as both lists go.
fn exchange(xs: &mut [i16], ys: &mut [i16])
    ensures { length xs.old ≡ length ys.old → Exchanges xs.old ys.old xs.new ys.new }
{
    let n = xs.len().min(ys.len());
    xs[..n].swap_with_slice(&mut ys[..n]);
}

// (-Y, X) for every (X, Y).
fn turn_left(xs: &mut [i16], ys: &mut [i16])
    ensures { length xs.old ≡ length ys.old → TurnsLeft xs.old ys.old xs.new ys.new }
{
    exchange(xs, ys);
    put_opposites(xs);
}

// (Y, -X) for every (X, Y).
fn turn_right(xs: &mut [i16], ys: &mut [i16])
    ensures { length xs.old ≡ length ys.old → TurnsRight xs.old ys.old xs.new ys.new }
{
    exchange(xs, ys);
    put_opposites(ys);
}

// The line of the points after a turn, which has this name.
fn turn<F: FnOnce(&mut [i16], &mut [i16])>(
    rt: &impl Print,
    name: &str,
    turn_points: F,
    t: Tables,
    xs: &mut [i16],
    ys: &mut [i16],
) -> io::Result<()>
    requires { F.IsAlwaysCallable turn_points }
{
    turn_points(xs, ys);
    print!(rt; "\n{name}:")?;
    turned(rt, read(t, Points { xs, ys }))
}

// Two lines: the points as written, and turned. The lent lists have an entry for each place.
pub fn half_turn(rt: &impl Print, t: Tables, xs: &mut [i16], ys: &mut [i16]) -> io::Result<()> {
    let _ = encode(t, 0, xs, ys);
    print!(rt; "\nas written:")?;
    frame(rt, read(t, Points { xs, ys }))?;
    turn(rt, "turned", turn_half, t, xs, ys)
}

// Two lines: the points turned to the left, and to the right. The lent lists have an entry for each place.
pub fn quarter_turn(rt: &impl Print, t: Tables, xs: &mut [i16], ys: &mut [i16]) -> io::Result<()> {
    let _ = encode(t, 0, xs, ys);
    turn(rt, "turned left", turn_left, t, xs, ys)?;
    let _ = encode(t, 0, xs, ys);
    turn(rt, "turned right", turn_right, t, xs, ys)
}
