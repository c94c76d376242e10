//! The commands that a page gives to its reader's shell.
use crate::making::{first_line, numbered, replacement, unescaped, without_returns};
use crate::quoting::words;
use command_line::{Screens, System, run};
use std::fs::OpenOptions;
use std::io::Write;
use std::{fs, io};

/// What a shell keeps from one command to the next: what `ssb` means, and the status of the last command.
#[derive(Drop)]
pub struct Shell {
    alias: Option<String>,
    status: u8,
}

/// Nobody watches.
const UNWATCHED: Screens = Screens {
    output: false,
    errors: false,
};

impl Shell {
    /// A shell that was given no command yet.
    pub fn new() -> Shell {
        Shell {
            alias: None,
            status: 0,
        }
    }

    /// What a command prints, on either stream.
    ///
    /// It knows `ssbcube`, `alias ssb='..'`, `ssb`, `cat` with one file, `echo $?`, and two commands that write a file,
    /// or with `>>` the end of one: `printf 'TEXT' > FILE` and `seq A B | sed 's/.*/TEXT/' > FILE`. Of a command with `
    /// 2>&1 | head -1` after it the first line is kept, and with ` | tr -d '\r'` after it what is no carriage return.
    /// The tables are not copied: they are in the folder already.
    pub fn run(&mut self, system: &System, command: &str) -> io::Result<Vec<u8>> {
        let alloc = system.alloc();
        if let Some(alias) = command.strip_prefix("alias ssb=") {
            self.alias = Some(String::from_str(alloc, alias.trim_matches('\''))?);
            return Ok(Vec::new(alloc));
        }
        if let Some(command) = command.strip_suffix(" | tr -d '\\r'") {
            let printed = self.run_command(system, command)?;
            return Ok(without_returns(alloc, printed.as_slice())?);
        }
        if let Some(command) = command.strip_suffix(" 2>&1 | head -1") {
            let printed = self.run_command(system, command)?;
            return Ok(first_line(alloc, printed.as_slice())?);
        }
        self.run_command(system, command)
    }

    // Runs a command that is no alias, with what `ssb` means in its place.
    fn run_command(&mut self, system: &System, command: &str) -> io::Result<Vec<u8>> {
        let alloc = system.alloc();
        match (after_ssb(command), &self.alias) {
            (Some(rest), Some(alias)) => {
                let whole = format!(in alloc; "{alias}{rest}")?;
                self.run_words(system, whole.as_str())
            }
            _ => self.run_words(system, command),
        }
    }

    fn run_words(&mut self, system: &System, command: &str) -> io::Result<Vec<u8>> {
        let words = words(system.alloc(), command)?;
        self.status = status_of(system, words.as_slice(), self.status)?;
        Ok(system.take_text())
    }
}

// What a command has after the word `ssb`, if that is its first.
fn after_ssb(command: &str) -> Option<&str> {
    match command.strip_prefix("ssb") {
        Some(rest) if rest.is_empty() || rest.starts_with(' ') => Some(rest),
        _ => None,
    }
}

// Does what words say after a command that ended with a status, and gives the status that they end with.
fn status_of(system: &System, words: &[String], last: u8) -> io::Result<u8> {
    let Some(name) = words.first() else {
        return Ok(last);
    };
    match name.as_str() {
        "ssbcube" => run(system, words, UNWATCHED),
        "cp" => Ok(0),
        "echo" => say(system, last),
        "cat" => show(system, words),
        "printf" => print_to_file(system, words),
        "seq" => number_to_file(system, words),
        name => unknown(system, name),
    }
}

// Prints the status of the command before.
fn say(system: &System, last: u8) -> io::Result<u8> {
    println!(system; "{last}")?;
    Ok(0)
}

fn unknown(system: &System, name: &str) -> io::Result<u8> {
    println!(system; "{name}: not known here")?;
    Ok(127)
}

// Prints the file that the second word names.
fn show(system: &System, words: &[String]) -> io::Result<u8> {
    if let Some(path) = words.get(1) {
        let text = fs::read_to_string(system, path.as_str())?;
        print!(system; "{text}")?;
    }
    Ok(0)
}

// Writes the text of the second word to the file that the fourth names, as the third says.
fn print_to_file(system: &System, words: &[String]) -> io::Result<u8> {
    let [_, text, how, path] = words else {
        return unknown(system, "printf");
    };
    let bytes = unescaped(system.alloc(), text.as_str())?;
    write_file(system, how.as_str(), path.as_str(), bytes.as_slice())
}

// Writes a line for each number to a file. The words are those of `seq A B | sed 's/.*/TEXT/' > FILE`.
fn number_to_file(system: &System, words: &[String]) -> io::Result<u8> {
    let [_, first, last, _, _, script, how, path] = words else {
        return unknown(system, "seq");
    };
    let (Ok(first), Ok(last)) = (first.parse::<u32>(), last.parse::<u32>()) else {
        return unknown(system, "seq");
    };
    let Some(line) = replacement(script.as_str()) else {
        return unknown(system, "sed");
    };
    let bytes = numbered(system.alloc(), first, last, line)?;
    write_file(system, how.as_str(), path.as_str(), bytes.as_slice())
}

// Puts bytes in the place of what a file has, or with `>>` after it.
fn write_file(system: &System, how: &str, path: &str, bytes: &[u8]) -> io::Result<u8> {
    match how {
        ">" => fs::write(system, path, bytes)?,
        ">>" => append(system, path, bytes)?,
        how => return unknown(system, how),
    }
    Ok(0)
}

fn append(system: &System, path: &str, bytes: &[u8]) -> io::Result<()> {
    let mut file = OpenOptions::new().append(true).open(system, path)?;
    file.write_all(bytes)
}
