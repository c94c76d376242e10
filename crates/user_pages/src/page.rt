//! The commands of a page.
use std::alloc::{AllocError, Global};

/// A command, and what its page says that it prints.
#[derive(Drop)]
pub struct Step<'a> {
    pub command: &'a str,
    pub printed: String,
}

/// Where a line of a page is.
#[derive(Clone, Copy)]
enum Place {
    /// Outside of all blocks.
    Text,
    /// In a block, before its first command.
    Block,
    /// In a block, after a command.
    Output,
}

/// The commands of a page in order. Each follows `$ ` in a block between fences, and what it prints in the lines
/// after it.
pub fn steps(alloc: Global, text: &str) -> Result<Vec<Step<'_>>, AllocError> {
    let mut steps = Vec::new(alloc);
    let mut place = Place::Text;
    for line in text.lines() {
        place = take_line(alloc, &mut steps, place, line)?;
    }
    Ok(steps)
}

// Takes the next line, and says where the line after it is.
fn take_line<'a>(
    alloc: Global,
    steps: &mut Vec<Step<'a>>,
    place: Place,
    line: &'a str,
) -> Result<Place, AllocError> {
    if line.starts_with("```") {
        return Ok(match place {
            Place::Text => Place::Block,
            Place::Block => Place::Text,
            Place::Output => Place::Text,
        });
    }
    match place {
        Place::Text => Ok(Place::Text),
        Place::Block => take_command(alloc, steps, line, Place::Block),
        Place::Output => {
            if line.starts_with("$ ") {
                return take_command(alloc, steps, line, Place::Output);
            }
            take_output(steps, line)?;
            Ok(Place::Output)
        }
    }
}

// Takes a command, if the line is one.
fn take_command<'a>(
    alloc: Global,
    steps: &mut Vec<Step<'a>>,
    line: &'a str,
    place: Place,
) -> Result<Place, AllocError> {
    match line.strip_prefix("$ ") {
        None => Ok(place),
        Some(command) => {
            steps.push(Step {
                command,
                printed: String::new(alloc),
            })?;
            Ok(Place::Output)
        }
    }
}

// Adds a line to what the last command prints.
fn take_output(steps: &mut Vec<Step<'_>>, line: &str) -> Result<(), AllocError> {
    if let Some(step) = steps.last_mut() {
        step.printed.push_str(line)?;
        step.printed.push('\n')?;
    }
    Ok(())
}
