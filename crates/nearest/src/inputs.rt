// The inputs of nearest reading besides the tables.
ghost use Rattle.std.specs.Prelude.{◌≡◌, ◌≤◌, length};
ghost use Rattle.g9932.specs.Answers.{told};
ghost use Rattle.g9932.specs.Nearest.{nearest_inputs};
ghost use Rattle.g9932.specs.Sizes.{most_tones};
ghost use Rattle.nearest.specs.Planned.{work_for};

use g9932::{Mode, Points, Refusal};
use plan::Plan;

// The bytes of the working buffer: 16 a coded pair. Called by proved code only.
fn work_bytes(mode: Mode, entry_count: usize) -> usize
    requires { entry_count ≤ most_tones }
    ensures { result ≡ work_for mode entry_count }
{
    match mode {
        Mode::Uncoded => 0,
        Mode::Coded => 16 * ((entry_count + 1) / 2),
    }
}

// Refusals 10 to 12 of nearest reading, by the plan of the tables. Called by proved code only.
pub fn check_inputs(
    plan: Plan,
    nsc: usize,
    points: Points,
    frame_len: usize,
    work_len: usize,
    start: u8,
    register: u32,
) -> Result<(), Refusal>
    requires { length plan.entries.bits.now ≤ most_tones }
    ensures { told plan.entry.size result ≡ nearest_inputs start plan.entry.size nsc (work_for plan.entry.mode (length plan.entry.entries.bits.now)) (length points.entry.xs.now) (length points.entry.ys.now) frame_len work_len register }
{
    let bytes = work_bytes(plan.mode, plan.entries.bits.len());
    if work_len != bytes {
        return Err(Refusal::Room);
    }
    symbol::reading::check_inputs(plan.size, nsc, points, frame_len, start, register)
}
