//! The manual page of the program.
use crate::commands::{ABOUT, HELP, VERSION, commands};
use crate::described::Described;
use crate::pieces::write_pieces;
use crate::word::Word;
use crate::words::Words;
use std::fmt;

/// The manual page of the program, in the macros of `man`: for each command its usage, its words, and what its help
/// says.
#[derive(Clone, Copy)]
pub struct Manual;

impl fmt::Display for Manual {
    fn fmt<W: fmt::Write>(&self, f: &mut fmt::Formatter<W>) -> fmt::Result {
        write_head(f)?;
        for described in commands() {
            write_section(f, described)?;
        }
        Ok(())
    }
}

// Writes what the program is.
fn write_head<W: fmt::Write>(f: &mut fmt::Formatter<W>) -> fmt::Result {
    let title = [
        ".TH SSBCUBE 1 \"\" \"ssbcube ",
        VERSION,
        "\"\n.SH NAME\nssbcube \\- a warehouse for the Star Schema Benchmark\n.SH DESCRIPTION\n",
    ];
    write_pieces(f, &title)?;
    write_lines(f, ABOUT)?;
    write_example(f, HELP)?;
    f.write_str(".SH COMMANDS\n")
}

// Writes the section of a command.
fn write_section<W: fmt::Write>(f: &mut fmt::Formatter<W>, described: &Described) -> fmt::Result {
    write_pieces(f, &[".SS ", described.name, "\n"])?;
    write_lines(f, described.about)?;
    write_example(f, described.usage)?;
    write_all(f, described.required)?;
    write_all(f, described.optional)?;
    write_example(f, described.help)
}

// Writes the words of a command, each with what the help says of it.
fn write_all<W: fmt::Write>(f: &mut fmt::Formatter<W>, words: &[Words]) -> fmt::Result {
    for some in words {
        write_each(f, some.each())?;
    }
    Ok(())
}

fn write_each<W: fmt::Write>(f: &mut fmt::Formatter<W>, words: &[Word]) -> fmt::Result {
    for word in words {
        write_word(f, word)?;
    }
    Ok(())
}

fn write_word<W: fmt::Write>(f: &mut fmt::Formatter<W>, word: &Word) -> fmt::Result {
    f.write_str(".TP\n")?;
    if word.is_option() {
        write_name(f, word.name)?;
    }
    write_pieces(f, &["\\fI", word.value, "\\fR\n"])?;
    write_lines(f, word.help)
}

fn write_name<W: fmt::Write>(f: &mut fmt::Formatter<W>, name: &str) -> fmt::Result {
    f.write_str("\\fB\\-\\-")?;
    write_escaped(f, name)?;
    f.write_str("\\fR ")
}

// Writes lines as they are laid out here.
fn write_example<W: fmt::Write>(f: &mut fmt::Formatter<W>, text: &str) -> fmt::Result {
    f.write_str(".PP\n.nf\n")?;
    write_lines(f, text)?;
    f.write_str(".fi\n")
}

// Writes lines of text. One that begins as a macro does is none.
fn write_lines<W: fmt::Write>(f: &mut fmt::Formatter<W>, text: &str) -> fmt::Result {
    for line in text.lines() {
        let is_macro = line.starts_with('.') || line.starts_with('\'');
        f.write_str(if is_macro { "\\&" } else { "" })?;
        write_escaped(f, line)?;
        f.write_str("\n")?;
    }
    Ok(())
}

// Writes a text whose backslashes and dashes are printed as they are.
fn write_escaped<W: fmt::Write>(f: &mut fmt::Formatter<W>, text: &str) -> fmt::Result {
    for sign in text.chars() {
        match sign {
            '\\' => f.write_str("\\e")?,
            '-' => f.write_str("\\-")?,
            sign => f.write_char(sign)?,
        }
    }
    Ok(())
}
