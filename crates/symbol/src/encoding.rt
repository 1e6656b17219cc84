// The inputs of encoding besides the tables.
ghost use Rattle.std.specs.Prelude.{◌≡◌};
ghost use Rattle.g9932.specs.Answers.{encode_inputs, told};

use g9932::Refusal;

// Refusals 10 to 12 of encoding, for a frame of `size` bits and `nsc` tones. A frame and its start are two parameters, as in reading, where
// the frame is written.
pub fn check_inputs(
    size: usize,
    nsc: usize,
    x_len: usize,
    y_len: usize,
    frame: &[u8],
    start: u8,
    register: u32,
) -> Result<(), Refusal>
    ensures { told size result ≡ encode_inputs start size nsc x_len y_len frame.now register }
{
    if (x_len != nsc) | (y_len != nsc) {
        return Err(Refusal::Room);
    }
    if frame::frame_refused(frame, start, size) {
        return Err(Refusal::Frame);
    }
    if prbs::seed_refused(register) {
        return Err(Refusal::Seed);
    }
    Ok(())
}
