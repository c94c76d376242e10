//! What the demonstration says between the lines of its commands.
use cube_model::Fault;
use std::fmt::Display;
use std::io::Write;

/// Says what comes next.
pub fn say<W: Write, T: Display + Drop>(out: &mut W, text: T) -> Result<(), Fault> {
    match writeln!(out, "\n{text}") {
        Ok(()) => Ok(()),
        Err(_) => Err(Fault::Output),
    }
}

/// Shows the command that does the next step on a file.
pub fn show<W: Write>(out: &mut W, command: &str) -> Result<(), Fault> {
    match writeln!(out, "\n> ssbcube {command}") {
        Ok(()) => Ok(()),
        Err(_) => Err(Fault::Output),
    }
}
