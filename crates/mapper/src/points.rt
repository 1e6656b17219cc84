// Labels to points, a block of places at a time: tones of 1 to 8 bits from the table of stored points, those of 9 bits or more by the rule.
// A block that has both kinds goes through the loops of both. Each loop does the same at every place, so that the compiler takes several
// places at a time; only the look-up goes one by one.
ghost use Rattle.std.specs.Prelude.{◌≤◌, ◌<◌, length};
ghost use Rattle.mapper.specs.Writing.{PutNeeds, PutsPoints};
ghost use Rattle.mapper.specs.Blocks.{PutsByRule, most_places, CountsStored, FindNeeds, FindsEntries, LookNeeds, LooksUp, PutStoredNeeds, PutsStored, TableNeeds, PutsFromTable, BlockEnd};

use g9932::Point;

// The places of a block.
pub const BLOCK: usize = 128;

// The points of the labels by the rule: right for tones of 9 bits or more.
fn put_by_rule(layouts: &[u16], labels: &[u16], xs: &mut [i16], ys: &mut [i16])
    requires { PutNeeds layouts.now labels.now xs.old ys.old }
    ensures { PutsByRule layouts.now labels.now xs.new ys.new }
{
    for i in 0..xs.len() {
        let p = constellation::map::point_by(layouts[i], labels[i]);
        xs[i] = p.x;
        ys[i] = p.y;
    }
}

// How many places have a tone whose points are stored.
fn count_stored(layouts: &[u16]) -> u16
    requires { length layouts.now ≤ most_places }
    ensures { CountsStored layouts.now result }
{
    let mut count = 0;
    for &layout in layouts {
        count += u16::from(constellation::stored::is_stored(layout));
    }
    count
}

// Where the table has the points of the labels.
fn find_entries(layouts: &[u16], labels: &[u16], entries: &mut [u16])
    requires { FindNeeds layouts.now labels.now entries.old }
    ensures { FindsEntries layouts.now labels.now entries.new }
{
    for i in 0..entries.len() {
        entries[i] = constellation::stored::entry_of(layouts[i], labels[i]);
    }
}

// What the table has at these places, in their stead.
fn look_up(table: &[u16; 510], entries: &mut [u16])
    requires { LookNeeds entries.old }
    ensures { LooksUp table.now entries.old entries.new }
{
    for e in entries.iter_mut() {
        *e = table[usize::from(*e)];
    }
}

// Puts the stored points, and leaves those of 9 bits or more.
fn put_stored(layouts: &[u16], entries: &[u16], xs: &mut [i16], ys: &mut [i16])
    requires { PutStoredNeeds layouts.now entries.now xs.old ys.old }
    ensures { PutsStored layouts.now entries.now xs.old ys.old xs.new ys.new }
{
    for i in 0..xs.len() {
        let p = Point { x: xs[i], y: ys[i] };
        let q = constellation::stored::stored_or(layouts[i], entries[i], p);
        xs[i] = q.x;
        ys[i] = q.y;
    }
}

// The points of the tones of 1 to 8 bits, and (0, 0) of the silent ones, over those that stand there. The entries are working memory.
fn put_from_table(
    table: &[u16; 510],
    layouts: &[u16],
    labels: &[u16],
    entries: &mut [u16],
    xs: &mut [i16],
    ys: &mut [i16],
)
    requires { TableNeeds table.now layouts.now labels.now entries.old xs.old ys.old }
    ensures { PutsFromTable layouts.now labels.now xs.old ys.old xs.new ys.new }
{
    find_entries(layouts, labels, entries);
    look_up(table, entries);
    put_stored(layouts, entries, xs, ys);
}

// The points of a block of places. Called by proved code only.
pub fn put_block(
    table: &[u16; 510],
    layouts: &[u16],
    labels: &[u16],
    entries: &mut [u16],
    xs: &mut [i16],
    ys: &mut [i16],
)
    requires { TableNeeds table.now layouts.now labels.now entries.old xs.old ys.old × (length xs.old ≤ most_places) }
    ensures { PutsPoints layouts.now labels.now xs.new ys.new }
{
    let stored = usize::from(count_stored(layouts));
    if stored < xs.len() {
        put_by_rule(layouts, labels, xs, ys);
    }
    if 0 < stored {
        put_from_table(table, layouts, labels, entries, xs, ys);
    }
}

// Where the block that begins at a place ends. Called by proved code only.
pub fn block_end(from: usize, places: usize) -> usize
    requires { from < places }
    ensures { BlockEnd from places result }
{
    from + BLOCK.min(places - from)
}

// The points of the labels, by the layouts of the places. The table is lent to all blocks. Called by proved code only.
pub fn put_points(layouts: &[u16], labels: &[u16], xs: &mut [i16], ys: &mut [i16])
    requires { PutNeeds layouts.now labels.now xs.old ys.old }
    ensures { PutsPoints layouts.now labels.now xs.new ys.new }
{
    let table = constellation::points::point_table();
    let mut entries = [0u16; BLOCK];
    for i in (0..xs.len()).step_by(BLOCK) {
        let end = block_end(i, xs.len());
        put_block(
            &table,
            &layouts[i..end],
            &labels[i..end],
            &mut entries[..end - i],
            &mut xs[i..end],
            &mut ys[i..end],
        );
    }
}
