// Points back to labels, and labels to frame bits.
ghost use Rattle.std.specs.Prelude.{◌≡◌, not, ◌++◌, length, take, drop, ◌<◌};
ghost use Rattle.g9932.specs.Bits.{or_at};
ghost use Rattle.g9932.specs.Sizes.{entry, point_at};
ghost use Rattle.mapper.specs.Reading.{join_ones, DemapNeeds, DemapAllNeeds, DemapsAll, OnOrOff, OffAt, DemapsPoints, CheckNeeds, ChecksFiller, JoinNeeds, CollectNeeds, CollectsLabels};

use frame::BitWriter;
use frame::by_place::{label_at, place_at};
use g9932::{Entries, Place, Points};

// The labels of all points, by the layouts of the places, and whether every point has one. There is no early exit: the compiler takes
// several places at a time. Called by proved code only.
pub fn demap_all(layouts: &[u16], points: Points, labels: &mut [u16]) -> bool
    requires { DemapAllNeeds layouts.now points.xs.now points.ys.now labels.old }
    ensures { DemapsAll layouts.now points.entry.xs.now points.entry.ys.now labels.new result }
{
    let mut all = true;
    for i in 0..points.xs.len() {
        let label = constellation::demap::label_by(layouts[i], points.at(Place(i)));
        labels[i] = label.unwrap_or(0);
        all &= label.is_some();
    }
    all
}

// Whether the point at a place is in its constellation.
fn on_grid(layouts: &[u16], points: Points, p: Place) -> bool
    requires { DemapNeeds layouts.now points.xs.now points.ys.now × (p.0 < length points.xs.now) }
    ensures { OnOrOff (entry layouts.now p.0) (point_at points.entry.xs.now points.entry.ys.now p.0) result }
{
    let at = p.0;
    let end = at + 1;
    let one = Points {
        xs: &points.xs[at..end],
        ys: &points.ys[at..end],
    };
    let mut label = [0u16; 1];
    demap_all(&layouts[at..end], one, &mut label)
}

// The first place whose point is off its constellation. It takes one place at a time through `demap_all`, so that the loop there is the
// only one that the compiler widens.
fn first_offgrid(layouts: &[u16], points: Points) -> Option<usize>
    requires { DemapNeeds layouts.now points.xs.now points.ys.now }
    ensures { OffAt layouts.now points.entry.xs.now points.entry.ys.now result }
{
    for i in 0..points.xs.len() {
        if !on_grid(layouts, points, Place(i)) {
            return Some(i);
        }
    }
    None
}

// The first place that 13 refuses, and the labels of all points where there is none. Called by proved code only.
pub fn demap_points(layouts: &[u16], points: Points, labels: &mut [u16]) -> Option<usize>
    requires { DemapAllNeeds layouts.now points.xs.now points.ys.now labels.old }
    ensures { DemapsPoints layouts.now points.entry.xs.now points.entry.ys.now labels.new result }
{
    if demap_all(layouts, points, labels) {
        return None;
    }
    first_offgrid(layouts, points)
}

// Filler bits read: the first place that 14 refuses, and the register after the draws.
#[derive(Clone, Copy)]
pub struct FillerRead {
    pub monitor: Option<usize>,
    pub register: u32,
}

// What was found already, or else the place, where the test fails there.
fn or_here(found: Option<usize>, holds: bool, p: Place) -> Option<usize>
    ensures { result ≡ or_at found (not holds) p.0 }
{
    found.or((!holds).then_some(p.0))
}

// Compares the labels of the places that draw with their filler bits, but for silent tones, whose bits are thrown away.
// Called by proved code only.
pub fn check_filler(drawing: &[u16], layouts: &[u16], register: u32, labels: &[u16]) -> FillerRead
    requires { CheckNeeds drawing.now layouts.now labels.now }
    ensures { ChecksFiller drawing.now layouts.now register labels.now result }
{
    let mut monitor = None;
    let mut next = register;
    for &place in drawing {
        let p = Place(usize::from(place));
        let f = prbs::filler_label(next);
        let silent = constellation::is_silent(layouts[p.0]);
        let same = u32::from(label_at(labels, p)) == f.label;
        monitor = or_here(monitor, silent | same, p);
        next = f.register;
    }
    FillerRead {
        monitor,
        register: next,
    }
}

// From place `shared_from` on, two tones of 1 bit share a label: both bits go to the first one's place. Called by proved code only.
pub fn join_shared(labels: &mut [u16], shared_from: Place)
    requires { JoinNeeds labels.old shared_from.0 }
    ensures { labels.new ≡ take shared_from.0 labels.old ++ join_ones (drop shared_from.0 labels.old) }
{
    for i in (shared_from.0..labels.len().saturating_sub(1)).step_by(2) {
        labels[i] += 2 * labels[i + 1];
    }
}

// Puts the labels of the entries, each from its place, as bits behind those that a writer has put. Called by proved code only.
pub fn collect_labels(
    writer: BitWriter,
    entries: Entries,
    labels: &[u16],
    frame: &mut [u8],
) -> BitWriter
    requires { CollectNeeds writer entries.bits.now entries.places.now labels.now frame.old }
    ensures { CollectsLabels writer entries.entry.bits.now entries.entry.places.now labels.now frame.old result frame.new }
{
    let mut w = writer;
    for (j, &n) in entries.bits.iter().enumerate() {
        let label = label_at(labels, place_at(entries.places, j));
        w = w.put(frame, usize::from(n), u32::from(label));
    }
    w
}
