// Writing a symbol.
ghost use Rattle.passes.specs.WriteSymbol.{LabelFrameNeeds, sent_for, EntryLabels, WritePointsNeeds, WritesAnyPoints, WriteSymbolNeeds, WritesAnySymbol};

use g9932::Mode;
use plan::Plan;

// The labels of a frame whose bits begin at bit `start`, each at its entry's place: coded, the trellis makes them.
fn label_frame(plan: Plan, frame: &[u8], start: usize, labels: &mut [u16])
    requires { LabelFrameNeeds plan.mode frame.now start plan.entries.bits.now plan.entries.places.now labels.old }
    ensures { EntryLabels (sent_for plan.entry.mode frame.now start plan.entry.entries.bits.now) plan.entry.entries.bits.now plan.entry.entries.places.now labels.new }
{
    match plan.mode {
        Mode::Uncoded => mapper::write::cut_labels(frame, start, plan.entries, labels),
        Mode::Coded => trellis::encode_labels(frame, start, plan.entries, labels),
    }
}

// The points of labels at their entries' places, and the register after the draws.
fn write_points(
    plan: Plan,
    register: u32,
    labels: &mut [u16],
    xs: &mut [i16],
    ys: &mut [i16],
) -> u32
    requires { WritePointsNeeds plan.shared_from.0 plan.drawing.now plan.layouts.now labels.old xs.old ys.old }
    ensures { WritesAnyPoints plan.entry.shared_from.0 plan.entry.drawing.now plan.entry.layouts.now labels.old xs.old ys.old register result xs.new ys.new }
{
    mapper::write::split_shared(labels, plan.shared_from);
    let after = mapper::write::set_filler(plan.drawing, register, labels);
    mapper::points::put_points(plan.layouts, labels, xs, ys);
    after
}

// The symbol of an accepted frame, by the plan of its tables, and the register after the draws. The labels, one for each place or more, are
// working memory. Called by proved code only.
pub fn write_symbol(
    plan: Plan,
    frame: &[u8],
    start: u8,
    register: u32,
    labels: &mut [u16],
    xs: &mut [i16],
    ys: &mut [i16],
) -> u32
    requires { WriteSymbolNeeds plan frame.now start labels.old xs.old ys.old }
    ensures { WritesAnySymbol plan.entry frame.now start labels.old xs.old ys.old register result xs.new ys.new }
{
    let labels = &mut labels[..plan.layouts.len()];
    label_frame(plan, frame, usize::from(start), labels);
    write_points(plan, register, labels, xs, ys)
}
