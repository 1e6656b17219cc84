// Frame bits to labels by place.
ghost use Rattle.std.specs.Prelude.{◌≡◌, ◌++◌, ◌≤◌, length, take, drop};
ghost use Rattle.mapper.specs.Writing.{CutNeeds, CutsLabels, split_ones, FillerNeeds, SetsFiller};

use frame::by_place::{place_at, put_label};
use frame::masks::Masks;
use g9932::{Entries, Place};

// Cuts a frame's bits, from bit `start` on, into the labels of the entries, each at its place. Called by proved code only.
pub fn cut_labels(frame: &[u8], start: usize, entries: Entries, labels: &mut [u16])
    requires { CutNeeds frame.now start entries.bits.now entries.places.now labels.old }
    ensures { CutsLabels frame.now start entries.entry.bits.now entries.entry.places.now labels.new }
{
    let masks = Masks::new();
    let mut at = start;
    for (j, &bits) in entries.bits.iter().enumerate() {
        let n = usize::from(bits);
        let label = masks.lowest(n, frame::ahead(frame, at));
        put_label(labels, place_at(entries.places, j), label as u16);
        at += n;
    }
}

// From place `shared_from` on, two tones of 1 bit share a label, which stands at the first one's place: it keeps the lower bit, and the
// second one gets the upper. Called by proved code only.
pub fn split_shared(labels: &mut [u16], shared_from: Place)
    requires { shared_from.0 ≤ length labels.old }
    ensures { labels.new ≡ take shared_from.0 labels.old ++ split_ones (drop shared_from.0 labels.old) }
{
    for i in (shared_from.0..labels.len().saturating_sub(1)).step_by(2) {
        let both = labels[i];
        labels[i] = both % 2;
        labels[i + 1] = both / 2;
    }
}

// Puts the filler bits of the places that draw, and answers the register after the draws. A silent tone's label does not count: its
// layout alone gives its point. Called by proved code only.
pub fn set_filler(drawing: &[u16], register: u32, labels: &mut [u16]) -> u32
    requires { FillerNeeds drawing.now labels.old }
    ensures { SetsFiller drawing.now register labels.old result labels.new }
{
    let mut next = register;
    for &place in drawing {
        let f = prbs::filler_label(next);
        put_label(labels, Place(usize::from(place)), f.label as u16);
        next = f.register;
    }
    next
}
