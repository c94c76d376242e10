//! A command, and what its help says.
use crate::word::Word;
use crate::words::Words;
use clap::Command;
use std::alloc::{AllocError, Global};

/// A command: its name, what its help says before and after its words, its words that have to be there, and those that
/// may be.
pub(crate) struct Described {
    pub name: &'static str,
    pub about: &'static str,
    pub usage: &'static str,
    pub help: &'static str,
    pub required: &'static [Words],
    pub optional: &'static [Words],
}

impl Described {
    /// The command as the parser takes it. It can only fail when out of memory.
    pub(crate) fn command<'a>(&self, alloc: Global) -> Result<Command<'a>, AllocError> {
        let command = Command::new(alloc, self.name)
            .about(self.about)
            .override_usage(self.usage)
            .after_help(self.help);
        let command = with_words(alloc, command, self.required, true)?;
        with_words(alloc, command, self.optional, false)
    }
}

/// A command with further words, which may be left out or not.
pub(crate) fn with_words<'a>(
    alloc: Global,
    command: Command<'a>,
    words: &[Words],
    required: bool,
) -> Result<Command<'a>, AllocError> {
    let mut command = command;
    for some in words {
        command = with_each(alloc, command, some.each(), required)?;
    }
    Ok(command)
}

// The same with words of one kind.
fn with_each<'a>(
    alloc: Global,
    command: Command<'a>,
    words: &[Word],
    required: bool,
) -> Result<Command<'a>, AllocError> {
    let mut command = command;
    for word in words {
        command = command.arg(word.arg(alloc, required)?)?;
    }
    Ok(command)
}
