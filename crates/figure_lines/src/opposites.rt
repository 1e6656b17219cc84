// The opposite of every coordinate of a list, and of every point: half a turn.
ghost use Rattle.figure_lines.specs.Turned.{Opposites};

// Puts the opposite for every coordinate. The least number of sixteen bits has none there, and stays.
pub fn put_opposites(list: &mut [i16])
    ensures { Opposites list.old list.new }
{
    for z in list.iter_mut() {
        *z = z.wrapping_neg();
    }
}

// (-X, -Y) for every (X, Y).
pub fn turn_half(xs: &mut [i16], ys: &mut [i16])
    ensures xs { Opposites xs.old xs.new }
    ensures ys { Opposites ys.old ys.new }
{
    put_opposites(xs);
    put_opposites(ys);
}
