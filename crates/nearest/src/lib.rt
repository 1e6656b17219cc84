// Reading points that were received off the grid: the frame whose written points are nearest to them.
#![tactic(auto)]

mod inputs;
mod range;

ghost use Rattle.std.specs.Prelude.{length};
ghost use Rattle.g9932.specs.Nearest.{ReadsNearest, nearest_inputs, work_bytes};
ghost use Rattle.g9932.specs.Sizes.{tables_of};
ghost use Rattle.symbol.specs.Inputs.{PlansFor};
ghost use Rattle.nearest.specs.Planned.{LowNeeds, Lows, DecideNeeds, DecidesAny, NearestNeeds, ReadsAnyPlanned, PlannedNeeds, ReadsAnyPlan};

use decisions::CostLists;
use g9932::{MOST_HELD, MOST_TONES, Mode, Nearest, Place, Points, Refusal, Refused, Tables};
use inputs::check_inputs;
use plan::{Plan, Room, plan_tables};

// The two lowest bits of the labels at their entries' places, by the costs there, and the total of squared distances. Coded, `work` holds
// the survivors; uncoded, the first coset's list does not keep its costs.
fn decide_low(plan: Plan, costs: &mut CostLists, work: &mut [u8], labels: &mut [u16]) -> u64
    requires { LowNeeds plan.mode plan.shared_from.0 plan.entries.places.now plan.layouts.now costs.old work.old labels.old }
    ensures { Lows plan.entry.mode plan.entry.shared_from.0 plan.entry.entries.places.now plan.entry.layouts.now costs.old labels.new result }
{
    match plan.mode {
        Mode::Uncoded => decisions::least_low(plan.layouts, plan.entries.places, costs, labels),
        Mode::Coded => {
            let total = decisions::least_path(plan.entries.places, plan.shared_from, costs, work);
            decisions::trace_low(plan.entries.places, work, labels);
            total
        }
    }
}

// The labels that are decided at their entries' places, and the total of squared distances.
fn decide_labels(plan: Plan, points: Points, work: &mut [u8], labels: &mut [u16]) -> u64
    requires { DecideNeeds plan.mode plan.shared_from.0 plan.entries.places.now plan.layouts.now points.xs.now points.ys.now work.old labels.old }
    ensures { DecidesAny plan.entry.mode plan.entry.shared_from.0 plan.entry.entries.places.now plan.entry.layouts.now points.entry.xs.now points.entry.ys.now work.old labels.old labels.new result }
{
    let mut costs = CostLists::new();
    decisions::cost_places(plan.layouts, points, &mut costs);
    let total = decide_low(plan, &mut costs, work, labels);
    decisions::label_places(plan.layouts, points, labels);
    total
}

// The nearest frame of points in range, by the plan of their tables, with its total. Every input is known to pass, and no pair of a path
// through the trellis breaks the code. Of the filler bits only the register after them is needed. The labels and what is held are working
// memory.
fn nearest_frame(
    plan: Plan,
    points: Points,
    register: u32,
    labels: &mut [u16],
    held: &mut [u8],
    frame: &mut [u8],
    start: u8,
    work: &mut [u8],
) -> Nearest
    requires { NearestNeeds plan points.xs.now points.ys.now labels.old held.old frame.old start work.old }
    ensures { ReadsAnyPlanned plan.entry points.entry.xs.now points.entry.ys.now labels.old held.old frame.old start work.old register result frame.new }
{
    let after = mapper::write::set_filler(plan.drawing, register, labels);
    let total = decide_labels(plan, points, work, labels);
    passes::read::frame_of_path(plan, start, labels, held);
    frame::copy(held, frame);
    Nearest {
        size: plan.size,
        register: after,
        total,
    }
}

// The nearest frame by the plan of accepted tables: every input is known to pass but for 23, which looks at every place.
fn read_planned(
    plan: Plan,
    points: Points,
    register: u32,
    frame: &mut [u8],
    start: u8,
    work: &mut [u8],
) -> Result<Nearest, Refused>
    requires { PlannedNeeds plan points.xs.now points.ys.now register frame.old start work.old }
    ensures { ReadsAnyPlan plan.entry points.entry.xs.now points.entry.ys.now register frame.old start work.old result frame.new work.new }
{
    let mut labels = [0u16; MOST_TONES];
    let mut held = [0u8; MOST_HELD];
    if let Some(k) = range::first_outside(points) {
        return Err(Refused {
            refusal: Refusal::Range(Place(k)),
            register,
        });
    }
    let n = points.xs.len();
    let labels = &mut labels[..n];
    Ok(nearest_frame(
        plan, points, register, labels, &mut held, frame, start, work,
    ))
}

// Refusals 1 to 8 and 10 to 12 of nearest reading, or the plan by which the points are read.
fn plan_reading<'a>(
    mode: Mode,
    t: Tables,
    points: Points,
    frame_len: usize,
    work_len: usize,
    start: u8,
    register: u32,
    room: &'a mut Room,
) -> Result<Plan<'a>, Refusal>
    ensures { PlansFor (tables_of mode t.entry) (λ size. nearest_inputs start size (length t.entry.tones.now) (work_bytes (tables_of mode t.entry)) (length points.entry.xs.now) (length points.entry.ys.now) frame_len work_len register) result }
{
    let plan = plan_tables(mode, t, room)?;
    let nsc = t.tones.len();
    check_inputs(plan, nsc, points, frame_len, work_len, start, register)?;
    Ok(plan)
}

// Reads received points into a frame that starts at a bit of its first byte: refusals 1 to 8, 10 to 12, of 11 the start alone, and 23 at
// every place. Where nothing is refused, writes all of a nearest frame, zeros around its bits, and answers L, the register after the draws
// and the total of squared distances; else writes nothing. `work` has 16 bytes a coded pair. A call takes some 140 KiB of stack, no
// heap and no global.
pub fn read(
    mode: Mode,
    t: Tables,
    points: Points,
    register: u32,
    frame: &mut [u8],
    start: u8,
    work: &mut [u8],
) -> Result<Nearest, Refused>
    ensures { ReadsNearest (tables_of mode t.entry) points.entry.xs.now points.entry.ys.now register start
        frame.old work.old result frame.new work.new }
{
    let mut room = Room::new();
    let frame_len = frame.len();
    let work_len = work.len();
    let planned = plan_reading(
        mode, t, points, frame_len, work_len, start, register, &mut room,
    );
    match planned {
        Err(refusal) => Err(Refused { refusal, register }),
        Ok(plan) => read_planned(plan, points, register, frame, start, work),
    }
}
