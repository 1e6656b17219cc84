// What the operations answer, as text.
use super::written::Written;
use g9932::{Point, Refusal};
use std::io;

// The name of the refusal with this number, or UNKNOWN: 9 and 17 to 21 are unused. None from 24 on, and of 0.
fn name(number: u32) -> Option<&'static str> {
    match number {
        1 => Some("SIZE"),
        2 => Some("TONE"),
        3 => Some("TWICE"),
        4 => Some("BITS"),
        5 => Some("STRAY"),
        6 => Some("GAIN"),
        7 => Some("ODD"),
        8 => Some("FEW"),
        10 => Some("ROOM"),
        11 => Some("FRAME"),
        12 => Some("SEED"),
        13 => Some("OFFGRID"),
        14 => Some("MONITOR"),
        15 => Some("TRELLIS"),
        16 => Some("LABEL"),
        22 => Some("FULL"),
        23 => Some("RANGE"),
        9 | 17..=21 => Some("UNKNOWN"),
        _ => None,
    }
}

// The number and the name of a refusal, or of a number that none has.
pub fn refused(rt: &impl Print, number: u32) -> io::Result<()> {
    print!(rt; " {number}")?;
    match name(number) {
        Some(name) => print!(rt; " {name}"),
        None => Ok(()),
    }
}

// The same with its place, which of TRELLIS is a pair.
fn refused_at(rt: &impl Print, refusal: Refusal) -> io::Result<()> {
    print!(rt; " refused")?;
    refused(rt, refusal.number())?;
    let counted = match refusal {
        Refusal::Trellis(_) => "pair",
        _ => "place",
    };
    print!(rt; " at {counted} {}", refusal.place())
}

// L, or the refusal.
pub fn size(rt: &impl Print, answer: Result<usize, Refusal>) -> io::Result<()> {
    match answer {
        Ok(size) => print!(rt; " L {size}"),
        Err(refusal) => refused(rt, refusal.number()),
    }
}

// The point of a label, or the refusal.
pub fn mapped(rt: &impl Print, answer: Result<Point, Refusal>) -> io::Result<()> {
    match answer {
        Ok(point) => print!(rt; " {}", Written(point)),
        Err(refusal) => refused(rt, refusal.number()),
    }
}

// The frame of one byte, or the refusal with its place.
pub fn frame(rt: &impl Print, answer: Result<u8, Refusal>) -> io::Result<()> {
    match answer {
        Ok(byte) => print!(rt; " read as frame {byte}"),
        Err(refusal) => refused_at(rt, refusal),
    }
}
