// Labels and gains to the numbers of a symbol and its peak, a block of places at a time.
ghost use Rattle.drive.specs.Blocks.{BlockNeeds, Drives, SymbolNeeds, DrivesSymbol};

use g9932::{Peak, Place, Points};
use mapper::points::BLOCK;

// The numbers of a block that begins at place `from`, and the peak after it. The entries and the points are working memory.
fn drive_block(
    peak: Peak,
    table: &[u16; 510],
    layouts: &[u16],
    labels: &[u16],
    gains: &[u16],
    from: usize,
    entries: &mut [u16],
    points_x: &mut [i16],
    points_y: &mut [i16],
    xs: &mut [f32],
    ys: &mut [f32],
) -> Peak
    requires { BlockNeeds table.now layouts.now labels.now gains.now entries.old points_x.old points_y.old xs.old ys.old from }
    ensures { Drives peak layouts.now labels.now gains.now from xs.new ys.new result }
{
    mapper::points::put_block(table, layouts, labels, entries, points_x, points_y);
    let points = Points {
        xs: points_x,
        ys: points_y,
    };
    crate::numbers::put_numbers(points, gains, xs, ys);
    crate::peaks::peak_after(peak, xs, ys, from)
}

// The numbers of the labels' points, by the layouts and the gains of the places, and their peak, carried from block to block. Its place is
// N where nothing is driven (`peak_place` of the definitions). Called by proved code only.
pub fn drive_labels(
    layouts: &[u16],
    labels: &[u16],
    gains: &[u16],
    xs: &mut [f32],
    ys: &mut [f32],
) -> Peak
    requires { SymbolNeeds layouts.now labels.now gains.now xs.old ys.old }
    ensures { DrivesSymbol layouts.now labels.now gains.now xs.new ys.new result }
{
    let table = constellation::points::point_table();
    let mut entries = [0u16; BLOCK];
    let mut points_x = [0i16; BLOCK];
    let mut points_y = [0i16; BLOCK];
    let mut peak = Peak {
        size: 0.0,
        place: Place(xs.len()),
    };
    for i in (0..xs.len()).step_by(BLOCK) {
        let end = mapper::points::block_end(i, xs.len());
        let n = end - i;
        peak = drive_block(
            peak,
            &table,
            &layouts[i..end],
            &labels[i..end],
            &gains[i..end],
            i,
            &mut entries[..n],
            &mut points_x[..n],
            &mut points_y[..n],
            &mut xs[i..end],
            &mut ys[i..end],
        );
    }
    peak
}
