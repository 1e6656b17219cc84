// Reading a symbol.
ghost use Rattle.frame.specs.Labels.{bits_of_labels, labels_at};
ghost use Rattle.passes.specs.ReadSymbol.{ReadPlacesNeeds, ReadsAnyPlaces, FrameLabels, ReadsFrame, ReadsPath, ReadFrameNeeds, ReadsAnyFrame, ReadSymbolNeeds, ReadsAnySymbol};

use frame::BitWriter;
use g9932::{Done, Mode, Place, Points, Refusal, Refused};
use mapper::read::{check_filler, collect_labels, demap_points, join_shared};
use plan::Plan;

// The labels of the points by place, and the register after the draws; or 13 at the first point off its constellation, or else 14 at the
// first monitored one whose label is not its filler bits.
fn read_places(
    plan: Plan,
    points: Points,
    register: u32,
    labels: &mut [u16],
) -> Result<u32, Refusal>
    requires { ReadPlacesNeeds plan.drawing.now plan.layouts.now labels.old points.xs.now points.ys.now }
    ensures { ReadsAnyPlaces plan.entry.drawing.now plan.entry.layouts.now labels.old points.entry.xs.now points.entry.ys.now register result labels.new }
{
    if let Some(k) = demap_points(plan.layouts, points, labels) {
        return Err(Refusal::Offgrid(Place(k)));
    }
    let f = check_filler(plan.drawing, plan.layouts, register, labels);
    if let Some(k) = f.monitor {
        return Err(Refusal::Monitor(Place(k)));
    }
    Ok(f.register)
}

// The frame of labels at their entries' places, from bit `start` on and with zeros around it, in the first bytes of a buffer; or else the
// first pair that breaks the code. Called by proved code only.
pub fn frame_of_labels(plan: Plan, start: u8, labels: &[u16], held: &mut [u8]) -> Result<(), usize>
    requires { FrameLabels plan.mode start plan.entries.bits.now plan.entries.places.now labels.now held.old }
    ensures { ReadsFrame plan.entry.mode start plan.entry.entries.bits.now (bits_of_labels plan.entry.entries.bits.now (labels_at plan.entry.entries.places.now labels.now)) result held.new }
{
    let first = BitWriter::starting_at(start);
    let w = match plan.mode {
        Mode::Uncoded => collect_labels(first, plan.entries, labels, held),
        Mode::Coded => decoder::read_labels(first, labels, plan.entries, held)?,
    };
    w.finish(held);
    Ok(())
}

// The same of labels that obey the code, as those along a path through the trellis do: nothing is tested, and nothing can fail. By the
// function above, its caller would have an answer for a broken pair that never comes. Called by proved code only.
pub fn frame_of_path(plan: Plan, start: u8, labels: &[u16], held: &mut [u8])
    requires { FrameLabels plan.mode start plan.entries.bits.now plan.entries.places.now labels.now held.old }
    ensures { ReadsPath plan.entry.mode start plan.entry.entries.bits.now (bits_of_labels plan.entry.entries.bits.now (labels_at plan.entry.entries.places.now labels.now)) held.new }
{
    let empty = BitWriter::starting_at(start);
    let w = match plan.mode {
        Mode::Uncoded => collect_labels(empty, plan.entries, labels, held),
        Mode::Coded => decoder::collect_pairs(empty, labels, plan.entries, held),
    };
    w.finish(held);
}

// The frame of labels by place; or else the first pair that breaks the code.
fn read_frame(plan: Plan, start: u8, labels: &mut [u16], held: &mut [u8]) -> Result<(), usize>
    requires { ReadFrameNeeds plan.mode start plan.shared_from.0 plan.entries.bits.now plan.entries.places.now labels.old held.old }
    ensures { ReadsAnyFrame plan.entry.mode start plan.entry.shared_from.0 plan.entry.entries.bits.now plan.entry.entries.places.now labels.old held.old result held.new }
{
    join_shared(labels, plan.shared_from);
    frame_of_labels(plan, start, labels, held)
}

// Refusals 13 to 15 of the points of a symbol, by the plan of its tables; or else writes the frame. The labels, one for each place or more,
// and what is held are working memory: the frame is held there until it is known to be whole. Called by proved code only.
pub fn read_symbol(
    plan: Plan,
    points: Points,
    register: u32,
    labels: &mut [u16],
    held: &mut [u8],
    frame: &mut [u8],
    start: u8,
) -> Result<Done, Refused>
    requires { ReadSymbolNeeds plan points.xs.now points.ys.now labels.old held.old frame.old start }
    ensures { ReadsAnySymbol plan.entry points.entry.xs.now points.entry.ys.now labels.old held.old frame.old start register result frame.new }
{
    let labels = &mut labels[..plan.layouts.len()];
    match read_places(plan, points, register, labels) {
        Err(refusal) => Err(Refused { refusal, register }),
        Ok(after) => match read_frame(plan, start, labels, held) {
            Err(pair) => Err(Refused {
                refusal: Refusal::Trellis(pair),
                register,
            }),
            Ok(()) => {
                frame::copy(held, frame);
                Ok(Done {
                    size: plan.size,
                    register: after,
                })
            }
        },
    }
}
