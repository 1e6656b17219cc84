// Labels by place in t', and lists of places.
ghost use Rattle.std.specs.Prelude.{◌≡◌, ◌<◌, length, set};
ghost use Rattle.g9932.specs.Sizes.{entry};

use g9932::Place;

// Entry j of a list of places. Called by proved code only.
pub fn place_at(places: &[u16], j: usize) -> Place
    requires { j < length places.now }
    ensures { result.0 ≡ entry places.now j }
{
    Place(usize::from(places[j]))
}

// The label at a place. Called by proved code only.
pub fn label_at(labels: &[u16], p: Place) -> u16
    requires { p.0 < length labels.now }
    ensures { result ≡ entry labels.now p.0 }
{
    labels[p.0]
}

// Puts a label at a place. Called by proved code only.
pub fn put_label(labels: &mut [u16], p: Place, label: u16)
    requires { p.0 < length labels.old }
    ensures { labels.new ≡ set labels.old p.0 label }
{
    labels[p.0] = label;
}
