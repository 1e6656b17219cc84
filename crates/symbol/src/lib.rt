// Encoding and reading one symbol: the order of the refusals, and the parts put together.
#![tactic(auto)]

mod encoding;
pub mod reading;

ghost use Rattle.std.specs.Prelude.{length};
ghost use Rattle.g9932.specs.Sizes.{tables_of};
ghost use Rattle.g9932.specs.Answers.{Encodes, Reads, encode_inputs, read_inputs};
ghost use Rattle.symbol.specs.Inputs.{PlansFor};

use g9932::{Done, MOST_HELD, MOST_TONES, Mode, Points, Refusal, Refused, Tables};
use passes::read::read_symbol;
use passes::write::write_symbol;
use plan::{Plan, Room, plan_tables};

// Refusals 1 to 8 and 10 to 12 of encoding, or the plan by which the frame is written. Encoding and both ways of reading differ in their
// middle line: one function for all would take that test as a closure, which is no shorter.
fn plan_encoding<'a>(
    mode: Mode,
    t: Tables,
    x_len: usize,
    y_len: usize,
    frame: &[u8],
    start: u8,
    register: u32,
    room: &'a mut Room,
) -> Result<Plan<'a>, Refusal>
    ensures { PlansFor (tables_of mode t.entry) (λ size. encode_inputs start size (length t.entry.tones.now) x_len y_len frame.now register) result }
{
    let plan = plan_tables(mode, t, room)?;
    let nsc = t.tones.len();
    encoding::check_inputs(plan.size, nsc, x_len, y_len, frame, start, register)?;
    Ok(plan)
}

// Encodes a frame that starts at a bit of its first byte: refusals 1 to 8 and 10 to 12. Where nothing is refused, writes all of X and Y,
// and answers L and the register after the draws; else writes nothing. A call takes some 46 KiB of stack, no heap and no global.
pub fn encode(
    mode: Mode,
    t: Tables,
    frame: &[u8],
    start: u8,
    register: u32,
    xs: &mut [i16],
    ys: &mut [i16],
) -> Result<Done, Refused>
    ensures { Encodes (tables_of mode t.entry) start frame.now register xs.old ys.old result xs.new ys.new }
{
    let mut room = Room::new();
    let mut labels = [0u16; MOST_TONES];
    let planned = plan_encoding(
        mode,
        t,
        xs.len(),
        ys.len(),
        frame,
        start,
        register,
        &mut room,
    );
    match planned {
        Err(refusal) => Err(Refused { refusal, register }),
        Ok(plan) => {
            let size = plan.size;
            let register = write_symbol(plan, frame, start, register, &mut labels, xs, ys);
            Ok(Done { size, register })
        }
    }
}

// Refusals 1 to 8 and 10 to 12 of reading, or the plan by which the points are read.
fn plan_reading<'a>(
    mode: Mode,
    t: Tables,
    points: Points,
    frame_len: usize,
    start: u8,
    register: u32,
    room: &'a mut Room,
) -> Result<Plan<'a>, Refusal>
    ensures { PlansFor (tables_of mode t.entry) (λ size. read_inputs start size (length t.entry.tones.now) (length points.entry.xs.now) (length points.entry.ys.now) frame_len register) result }
{
    let plan = plan_tables(mode, t, room)?;
    let nsc = t.tones.len();
    reading::check_inputs(plan.size, nsc, points, frame_len, start, register)?;
    Ok(plan)
}

// Reads a symbol into a frame that starts at a bit of its first byte: refusals 1 to 8 and 10 to 12, then 13 at every place, 14 at every
// place, and 15. Where nothing is refused, writes all of the frame, zeros around its bits, and answers L and the register after the
// draws; else writes nothing. A call takes some 52 KiB of stack, no heap and no global.
pub fn read(
    mode: Mode,
    t: Tables,
    points: Points,
    register: u32,
    frame: &mut [u8],
    start: u8,
) -> Result<Done, Refused>
    ensures { Reads (tables_of mode t.entry) points.entry.xs.now points.entry.ys.now register start frame.old result frame.new }
{
    let mut room = Room::new();
    let mut labels = [0u16; MOST_TONES];
    let mut held = [0u8; MOST_HELD];
    let frame_len = frame.len();
    match plan_reading(mode, t, points, frame_len, start, register, &mut room) {
        Err(refusal) => Err(Refused { refusal, register }),
        Ok(plan) => read_symbol(plan, points, register, &mut labels, &mut held, frame, start),
    }
}
