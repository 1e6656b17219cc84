// The labels that are decided for received points. Costs and labels go by place in t', in loops whose steps are the same at every place:
// the compiler takes several places at a time. Between them the trellis is searched pair by pair. Proved code alone calls what has a
// `requires`.
#![tactic(auto)]

mod cost_lists;

ghost use Rattle.std.specs.Prelude.{List, ◌≡◌, ◌<◌, length, drop};
ghost use Rattle.cosets.specs.Meters.{Meter};
ghost use Rattle.g9932.specs.Sizes.{points_of, most_tones};
ghost use Rattle.decisions.specs.CostLists.{CosetsKept, KeptFrom};
ghost use Rattle.decisions.specs.Deciding.{PlaceNeeds, Costed, entry_costs, EntryNeeds, lone_in, pair_meters, MeterCosts, PathNeeds, Selected, LeastPath, TraceNeeds, StateBefore, LowTraced, PointNeeds, PlacePoints, PutNeeds, PutsLabels, LabelNeeds, PlaceLabels, LeastNeeds, LeastPlaces, PlacesBelow, total_at, ToneNeeds, LeastLows};

use cosets::Costs;
pub use cost_lists::CostLists;
use frame::by_place::{place_at, put_label};
use g9932::{MOST_TONES, Place, Points};
use trellis::{StateNumber, Steps};

// What the labels of every place cost, by coset. Costs behind the places stay.
pub fn cost_places(layouts: &[u16], points: Points, costs: &mut CostLists)
    requires { PlaceNeeds layouts.now points.xs.now points.ys.now }
    ensures costs { Costed layouts.now (points_of points.entry) costs.new (length points.entry.xs.now) }
    ensures behind { KeptFrom costs.old (length points.entry.xs.now) costs.new }
{
    for i in 0..points.xs.len() {
        let p = cosets::raise_point(points.at(Place(i)));
        costs.put(Place(i), cosets::costs_by(layouts[i], p));
    }
}

// The costs of an entry.
fn entry_costs(places: &[u16], shared_from: Place, costs: &CostLists, k: usize) -> Costs
    requires { EntryNeeds shared_from.0 places.now × (k < length places.now) }
    ensures { result ≡ entry_costs shared_from.0 places.now costs.now k }
{
    let p = place_at(places, k);
    let v = costs.at(p);
    if p.0 < shared_from.0 {
        return v;
    }
    cosets::shared_costs(v, costs.at(Place(p.0 + 1)))
}

// Add, compare and select from the last pair to the first with x at least 2: the metrics before it, and the survivors.
fn select_pairs(
    places: &[u16],
    shared_from: Place,
    costs: &CostLists,
    survivors: &mut [u8],
) -> [u64; 16]
    requires { PathNeeds shared_from.0 places.now survivors.old
        × ((ms : List Meter) × MeterCosts ms shared_from.0 places.now costs.now) }
    ensures { (ms : List Meter) → MeterCosts ms shared_from.0 places.now costs.now
        → Selected (drop (lone_in places.now) ms) (lone_in places.now) survivors.new result }
{
    let lone = places.len() % 2;
    let n = (places.len() + 1) / 2;
    let mut metric = [0u64; 16];
    for j in (lone..n).rev() {
        let k = 2 * j - lone;
        let v = entry_costs(places, shared_from, costs, k);
        let w = entry_costs(places, shared_from, costs, k + 1);
        let edges = paths::edges_of(v, w);
        metric = paths::advance(&metric, &edges, n - j < 3, survivors, 16 * j);
    }
    metric
}

// The survivors of a path of least cost, and that cost.
pub fn least_path(
    places: &[u16],
    shared_from: Place,
    costs: &CostLists,
    survivors: &mut [u8],
) -> u64
    requires { PathNeeds shared_from.0 places.now survivors.old
        × ((ms : List Meter) × MeterCosts ms shared_from.0 places.now costs.now) }
    ensures { (ms : List Meter) → MeterCosts ms shared_from.0 places.now costs.now
        → LeastPath (pair_meters ms) survivors.new result }
{
    let metric = select_pairs(places, shared_from, costs, survivors);
    if places.len() % 2 == 1 {
        let w = entry_costs(places, shared_from, costs, 0);
        return paths::first_alone(w, &metric, survivors);
    }
    metric[0] / 8
}

// Following the survivors, a first pair with x = 0, if there is one: it has no v. The state before the pairs with x at least 2.
fn trace_first(steps: &Steps, places: &[u16], survivors: &[u8], labels: &mut [u16]) -> StateNumber
    requires { TraceNeeds places.now survivors.now labels.old }
    ensures { StateBefore survivors.now (lone_in places.now) result.number × LowTraced places.now survivors.now labels.new (lone_in places.now) }
{
    if places.len() % 2 == 0 {
        return StateNumber::zero();
    }
    let t = paths::follow_pair(steps, survivors, 0, StateNumber::zero());
    put_label(labels, place_at(places, 0), t.w as u16);
    t.next
}

// Following the survivors: the two lowest bits of each entry's label that they give from the zero state, at its place.
pub fn trace_low(places: &[u16], survivors: &[u8], labels: &mut [u16])
    requires { TraceNeeds places.now survivors.now labels.old }
    ensures { LowTraced places.now survivors.now labels.new (length places.now) }
{
    let steps = Steps::new();
    let mut state = trace_first(&steps, places, survivors, labels);
    let lone = places.len() % 2;
    for k in (lone..places.len()).step_by(2) {
        let t = paths::follow_pair(&steps, survivors, (k + lone) / 2, state);
        put_label(labels, place_at(places, k), t.v as u16);
        put_label(labels, place_at(places, k + 1), t.w as u16);
        state = t.next;
    }
}

// The two lowest bits of every place's nearest label, where any are free, and what it costs over its first coset's cost.
fn least_places(layouts: &[u16], costs: &mut CostLists, labels: &mut [u16])
    requires { LeastNeeds layouts.now labels.old }
    ensures least { LeastPlaces layouts.now costs.old labels.new costs.new (length layouts.now) }
    ensures cosets { CosetsKept costs.old costs.new }
{
    for i in 0..layouts.len() {
        let c = cosets::least_coset(layouts[i], costs.at(Place(i)));
        labels[i] = c.low;
        costs.put_least(Place(i), c.cost);
    }
}

// The total of what the nearest labels at the entries' places cost.
fn total_at(places: &[u16], costs: &CostLists) -> u64
    requires { PlacesBelow places.now most_tones }
    ensures { result ≡ total_at costs.now.c0 places.now }
{
    let mut total = 0;
    for &place in places {
        total += u64::from(costs.least_at(Place(usize::from(place))));
    }
    total
}

// The two lowest bits of every place's nearest label, where any are free, and the total of what those of the entries cost. At the places
// the first coset's list does not keep its costs; all others stay.
pub fn least_low(layouts: &[u16], places: &[u16], costs: &mut CostLists, labels: &mut [u16]) -> u64
    requires { ToneNeeds layouts.now places.now labels.old }
    ensures lows { LeastLows layouts.now places.now costs.old labels.new result }
    ensures cosets { CosetsKept costs.old costs.new }
    ensures behind { KeptFrom costs.old (length layouts.now) costs.new }
{
    least_places(layouts, costs, labels);
    total_at(places, costs)
}

// The nearest points with the two lowest label bits that stand at the places.
fn nearest_points(
    layouts: &[u16],
    points: Points,
    labels: &[u16],
    near_xs: &mut [i16],
    near_ys: &mut [i16],
)
    requires { PointNeeds layouts.now points.xs.now points.ys.now labels.now near_xs.old near_ys.old }
    ensures { PlacePoints layouts.now (points_of points.entry) labels.now near_xs.new near_ys.new (length points.entry.xs.now) }
{
    for i in 0..points.xs.len() {
        let p = cosets::raise_point(points.at(Place(i)));
        let q = cosets::point_by(layouts[i], p, labels[i] % 4);
        near_xs[i] = q.x;
        near_ys[i] = q.y;
    }
}

// The labels of all places, from those that are found for their points.
fn put_labels(layouts: &[u16], found: &[u16], labels: &mut [u16])
    requires { PutNeeds layouts.now found.now labels.old }
    ensures { PutsLabels layouts.now found.now labels.old labels.new (length layouts.now) }
{
    for i in 0..layouts.len() {
        labels[i] = cosets::label_of(layouts[i], found[i], labels[i] % 4);
    }
}

// The nearest labels with the two lowest bits that stand at the places. The points go through the loop of exact reading, so that the
// compiler has the steps from a point to its label in one place; its answer, whether all are on their grids, is not needed.
fn label_points(
    layouts: &[u16],
    points: Points,
    near_xs: &mut [i16],
    near_ys: &mut [i16],
    found: &mut [u16],
    labels: &mut [u16],
)
    requires { PointNeeds layouts.now points.xs.now points.ys.now labels.old near_xs.old near_ys.old × (length found.old ≡ length points.xs.now) }
    ensures { PlaceLabels layouts.now (points_of points.entry) labels.old labels.new (length points.entry.xs.now) }
{
    nearest_points(layouts, points, labels, near_xs, near_ys);
    let near = Points {
        xs: near_xs,
        ys: near_ys,
    };
    mapper::read::demap_all(layouts, near, found);
    put_labels(layouts, found, labels);
}

// The same, with room of its own for the points.
pub fn label_places(layouts: &[u16], points: Points, labels: &mut [u16])
    requires { LabelNeeds layouts.now points.xs.now points.ys.now labels.old }
    ensures { PlaceLabels layouts.now (points_of points.entry) labels.old labels.new (length points.entry.xs.now) }
{
    let mut near_xs = [0i16; MOST_TONES];
    let mut near_ys = [0i16; MOST_TONES];
    let mut found = [0u16; MOST_TONES];
    let n = points.xs.len();
    label_points(
        layouts,
        points,
        &mut near_xs[..n],
        &mut near_ys[..n],
        &mut found[..n],
        labels,
    );
}
