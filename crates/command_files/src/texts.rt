//! The commands `manual` and `completions`.
use crate::exit::{DONE, NO_COMMAND};
use crate::output::cut_short;
use crate::refusal::Refusal;
use crate::system::System;
use clap::ArgMatches;
use command_words::{Completions, Manual, Shell};

/// Prints the manual page.
pub fn manual(rt: &System) -> Result<u8, Refusal> {
    let page = format!(in rt.alloc(); "{Manual}")?;
    print_text(rt, page.as_str())
}

/// Prints the script by which a shell completes the program's words.
pub fn completions(rt: &System, given: &ArgMatches<'_>) -> Result<u8, Refusal> {
    let Some(shell) = Shell::named(given.get_str("shell").unwrap_or("")) else {
        return Ok(NO_COMMAND);
    };
    let script = Completions(shell);
    let text = format!(in rt.alloc(); "{script}")?;
    print_text(rt, text.as_str())
}

/// Prints a text. A reader that closes early has read what it wants.
pub fn print_text(rt: &System, text: &str) -> Result<u8, Refusal> {
    match print!(rt; "{text}") {
        Ok(()) => Ok(DONE),
        Err(error) => cut_short(rt.alloc(), Some(error)),
    }
}
