// What the page of bench figures has on one table. The caller prints how the line begins, and lends lists with an entry for each place; the
// register is at reset. A write that fails ends a call with its error.
#![tactic(auto)]

mod opposites; // coordinates with their signs changed
mod turns; // what half a turn and a quarter turn do

use g9932::{Done, Mode, Points, Refusal, Refused, Tables};
use print::{frame, list, points, refused};
use std::io;
pub use turns::{half_turn, quarter_turn};

// The register at reset: all 23 bits are 1.
const RESET: u32 = 8388607;

// L, or the refusal.
pub fn size(rt: &impl Print, mode: Mode, t: Tables) -> io::Result<()> {
    print::size(rt, ordering::check_tables(mode, t))
}

// t' and b' of table A; zeros where it is refused, for nothing is written then.
pub fn order(rt: &impl Print, t: Tables) -> io::Result<()> {
    let mut reordered_tones = [0u16; 6];
    let mut reordered_bits = [0u8; 6];
    let _ = ordering::reorder(Mode::Coded, t, &mut reordered_tones, &mut reordered_bits);
    list(rt, &reordered_tones)?;
    print!(rt; "\ntable A: bits")?;
    list(rt, &reordered_bits)
}

// Writes the points of a frame of one byte that starts at its bit 0, coded.
fn encode(t: Tables, byte: u8, xs: &mut [i16], ys: &mut [i16]) -> Result<Done, Refused> {
    symbol::encode(Mode::Coded, t, &[byte], 0, RESET, xs, ys)
}

// The frame of one byte, from its bit 0 on, that the points are read as, coded.
fn read(t: Tables, points: Points) -> Result<u8, Refusal> {
    let mut frame = [0u8; 1];
    match symbol::read(Mode::Coded, t, points, RESET, &mut frame, 0) {
        Ok(_) => Ok(frame[0]),
        Err(refused) => Err(refused.refusal),
    }
}

// What turned points are read as.
fn turned(rt: &impl Print, answer: Result<u8, Refusal>) -> io::Result<()> {
    frame(rt, answer)?;
    if answer.is_ok() {
        print!(rt; ", the turn is not detected")?;
    }
    Ok(())
}

// The points of a frame of one byte, or the refusal.
pub fn written(
    rt: &impl Print,
    t: Tables,
    byte: u8,
    xs: &mut [i16],
    ys: &mut [i16],
) -> io::Result<()> {
    match encode(t, byte, xs, ys) {
        Ok(_) => {
            print!(rt; " points")?;
            points(rt, Points { xs, ys })
        }
        Err(answer) => refused(rt, answer.refusal.number()),
    }
}

// The register after a frame of one byte, or as it came.
pub fn register(
    rt: &impl Print,
    t: Tables,
    byte: u8,
    xs: &mut [i16],
    ys: &mut [i16],
) -> io::Result<()> {
    let register = match encode(t, byte, xs, ys) {
        Ok(done) => done.register,
        Err(refused) => refused.register,
    };
    print!(rt; "{register}")
}

// Points of table A with no tone monitored: every loaded one is (-1, -1).
pub fn silent(rt: &impl Print, t: Tables) -> io::Result<()> {
    let zs = [-1i16, -1, -1, 0, -1, -1];
    let both = Points { xs: &zs, ys: &zs };
    points(rt, both)?;
    print!(rt; "\ntable A, gain of 4 is 0:")?;
    frame(rt, read(t, both))
}
