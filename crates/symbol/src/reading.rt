// The inputs of reading besides the tables.
ghost use Rattle.std.specs.Prelude.{◌≡◌, length};
ghost use Rattle.g9932.specs.Answers.{read_inputs, told};

use g9932::{Points, Refusal};

// Refusals 10 to 12 of reading, for a frame of `size` bits and `nsc` tones; of 11 the start alone.
pub fn check_inputs(
    size: usize,
    nsc: usize,
    points: Points,
    frame_len: usize,
    start: u8,
    register: u32,
) -> Result<(), Refusal>
    ensures { told size result ≡ read_inputs start size nsc (length points.entry.xs.now) (length points.entry.ys.now) frame_len register }
{
    let x_len = points.xs.len();
    let y_len = points.ys.len();
    if ((x_len != nsc) | (y_len != nsc)) | (frame_len != frame::bytes_for(start, size)) {
        return Err(Refusal::Room);
    }
    if frame::start_refused(start) {
        return Err(Refusal::Frame);
    }
    if prbs::seed_refused(register) {
        return Err(Refusal::Seed);
    }
    Ok(())
}
