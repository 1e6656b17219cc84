// Lists, points and answers as text on standard output. Every word of a list has a space before it. A write that fails ends
// the call with its error; what was written before it stands.
#![tactic(auto)]

mod answers;
mod written; // points

pub use answers::{frame, mapped, refused, size};
use std::{fmt, io};
pub use written::points;

pub fn list<T: fmt::Display>(rt: &impl Print, numbers: &[T]) -> io::Result<()> {
    for n in numbers {
        print!(rt; " {n}")?;
    }
    Ok(())
}
