//! Scripts that have shells complete the words of the program.
use crate::commands::commands;
use crate::described::Described;
use crate::pieces::write_pieces;
use crate::word::{Value, Word};
use crate::words::Words;
use std::fmt;

/// A shell.
#[derive(Clone, Copy, PartialEq, Eq)]
pub enum Shell {
    Bash,
    Zsh,
    Fish,
}

impl Shell {
    /// The shell of a name.
    pub fn named(name: &str) -> Option<Shell> {
        match name {
            "bash" => Some(Shell::Bash),
            "zsh" => Some(Shell::Zsh),
            "fish" => Some(Shell::Fish),
            _ => None,
        }
    }
}

/// The script of a shell. Commands, options, and the values that an option may have are completed; where a file is
/// wanted, files.
#[derive(Clone, Copy)]
pub struct Completions(pub Shell);

impl fmt::Display for Completions {
    fn fmt<W: fmt::Write>(&self, f: &mut fmt::Formatter<W>) -> fmt::Result {
        let Completions(shell) = *self;
        f.write_str(shell.head())?;
        write_each(f, shell, Part::Command)?;
        f.write_str(shell.middle())?;
        write_each(f, shell, Part::Words)?;
        f.write_str(shell.tail())
    }
}

// What a script says of a command: what it is, or its words.
#[derive(Clone, Copy)]
enum Part {
    Command,
    Words,
}

impl Shell {
    // What is in front of the commands.
    fn head(self) -> &'static str {
        match self {
            Shell::Bash => BASH_HEAD,
            Shell::Zsh => ZSH_HEAD,
            Shell::Fish => "complete -c ssbcube -f\n",
        }
    }

    // What is between the commands and their words.
    fn middle(self) -> &'static str {
        match self {
            Shell::Bash => BASH_MIDDLE,
            Shell::Zsh => ZSH_MIDDLE,
            Shell::Fish => "",
        }
    }

    // What is after the words.
    fn tail(self) -> &'static str {
        match self {
            Shell::Bash => BASH_TAIL,
            Shell::Zsh => ZSH_TAIL,
            Shell::Fish => "",
        }
    }
}

const BASH_HEAD: &str = "_ssbcube() {
    local word=${COMP_WORDS[COMP_CWORD]} before=${COMP_WORDS[COMP_CWORD - 1]} words=
    if [ \"$COMP_CWORD\" = 1 ]; then
        words='";

const BASH_MIDDLE: &str = "'
    else
        case ${COMP_WORDS[1]} in
";

const BASH_TAIL: &str = "        esac
    fi
    COMPREPLY=($(compgen -W \"$words\" -- \"$word\"))
}
complete -o default -F _ssbcube ssbcube
";

const ZSH_HEAD: &str = "#compdef ssbcube
_ssbcube() {
    local command=$words[2]
    local -a commands=(
";

const ZSH_MIDDLE: &str = "    )
    if (( CURRENT == 2 )); then
        _describe command commands
        return
    fi
    shift words
    (( CURRENT-- ))
    case $command in
";

const ZSH_TAIL: &str = "    esac
}
_ssbcube \"$@\"
";

// Writes a part of what a script says of each command.
fn write_each<W: fmt::Write>(f: &mut fmt::Formatter<W>, shell: Shell, part: Part) -> fmt::Result {
    for described in commands() {
        match part {
            Part::Command => write_command(f, shell, described)?,
            Part::Words => write_case(f, shell, described)?,
        }
    }
    Ok(())
}

// Writes what a command is.
fn write_command<W: fmt::Write>(
    f: &mut fmt::Formatter<W>,
    shell: Shell,
    described: &Described,
) -> fmt::Result {
    let name = described.name;
    match shell {
        Shell::Bash => write_pieces(f, &[name, " "]),
        Shell::Zsh => {
            write_pieces(f, &["        '", name, ":"])?;
            write_quoted(f, described.about, "'\n")
        }
        Shell::Fish => {
            let command = [
                "complete -c ssbcube -n __fish_use_subcommand -a ",
                name,
                " -d '",
            ];
            write_pieces(f, &command)?;
            write_quoted(f, described.about, "'\n")
        }
    }
}

// Writes the words of a command.
fn write_case<W: fmt::Write>(
    f: &mut fmt::Formatter<W>,
    shell: Shell,
    described: &Described,
) -> fmt::Result {
    match shell {
        Shell::Bash => write_bash(f, described),
        Shell::Zsh => write_zsh(f, described),
        Shell::Fish => write_fish(f, described),
    }
}

// Writes the words of a command for bash: what may come after an option, and else the options.
fn write_bash<W: fmt::Write>(f: &mut fmt::Formatter<W>, described: &Described) -> fmt::Result {
    let case = [
        "        ",
        described.name,
        ")\n            case $before in\n",
    ];
    write_pieces(f, &case)?;
    write_options(f, Style::BashValues, described)?;
    f.write_str("            *) words='")?;
    write_options(f, Style::Bash, described)?;
    f.write_str("' ;;\n            esac ;;\n")
}

fn write_zsh<W: fmt::Write>(f: &mut fmt::Formatter<W>, described: &Described) -> fmt::Result {
    write_pieces(f, &["    ", described.name, ")\n        _arguments"])?;
    write_options(f, Style::Zsh, described)?;
    f.write_str(" '*:FILE:_files' ;;\n")
}

fn write_fish<W: fmt::Write>(f: &mut fmt::Formatter<W>, described: &Described) -> fmt::Result {
    write_options(f, Style::Fish(described.name), described)?;
    write_pieces(f, &[FISH_IN, described.name, "' -F\n"])
}

// What fish has in front of the name of a command whose words it completes.
const FISH_IN: &str = "complete -c ssbcube -n '__fish_seen_subcommand_from ";

// How an option is written.
#[derive(Clone, Copy)]
enum Style {
    /// Its name.
    Bash,
    /// What may come after it.
    BashValues,
    Zsh,
    /// With the name of its command.
    Fish(&'static str),
}

// Writes the options of a command.
fn write_options<W: fmt::Write>(
    f: &mut fmt::Formatter<W>,
    style: Style,
    described: &Described,
) -> fmt::Result {
    write_all(f, style, described.required)?;
    write_all(f, style, described.optional)
}

fn write_all<W: fmt::Write>(
    f: &mut fmt::Formatter<W>,
    style: Style,
    words: &[Words],
) -> fmt::Result {
    for some in words {
        write_some(f, style, some.each())?;
    }
    Ok(())
}

fn write_some<W: fmt::Write>(
    f: &mut fmt::Formatter<W>,
    style: Style,
    words: &[Word],
) -> fmt::Result {
    for word in words {
        if word.is_option() {
            write_option(f, style, word)?;
        }
    }
    Ok(())
}

// Writes an option.
fn write_option<W: fmt::Write>(
    f: &mut fmt::Formatter<W>,
    style: Style,
    word: &Word,
) -> fmt::Result {
    match style {
        Style::Bash => write_pieces(f, &["--", word.name, " "]),
        Style::BashValues => write_bash_values(f, word),
        Style::Zsh => write_zsh_option(f, word),
        Style::Fish(command) => write_fish_option(f, command, word),
    }
}

// Writes what may come after an option, where it has one of some names.
fn write_bash_values<W: fmt::Write>(f: &mut fmt::Formatter<W>, word: &Word) -> fmt::Result {
    let names = names_of(word);
    if names.is_empty() {
        return Ok(());
    }
    write_pieces(f, &["            --", word.name, ") words='"])?;
    write_names(f, names)?;
    f.write_str("' ;;\n")
}

fn write_zsh_option<W: fmt::Write>(f: &mut fmt::Formatter<W>, word: &Word) -> fmt::Result {
    write_pieces(f, &[" '--", word.name, "["])?;
    write_quoted(f, word.help, "]")?;
    if word.value().is_some() {
        write_zsh_value(f, word)?;
    }
    f.write_str("'")
}

fn write_zsh_value<W: fmt::Write>(f: &mut fmt::Formatter<W>, word: &Word) -> fmt::Result {
    let names = names_of(word);
    let (lead, end) = match (names.is_empty(), word.is_path()) {
        (false, _) => ("(", ")"),
        (true, true) => ("_files", ""),
        (true, false) => (" ", ""),
    };
    write_pieces(f, &[":", word.value, ":", lead])?;
    write_names(f, names)?;
    f.write_str(end)
}

fn write_fish_option<W: fmt::Write>(
    f: &mut fmt::Formatter<W>,
    command: &'static str,
    word: &Word,
) -> fmt::Result {
    write_pieces(f, &[FISH_IN, command, "' -l ", word.name])?;
    if word.value().is_some() {
        write_fish_value(f, word)?;
    }
    f.write_str(" -d '")?;
    write_quoted(f, word.help, "'\n")
}

fn write_fish_value<W: fmt::Write>(f: &mut fmt::Formatter<W>, word: &Word) -> fmt::Result {
    let names = names_of(word);
    if names.is_empty() {
        return f.write_str(if word.is_path() { " -r -F" } else { " -x" });
    }
    f.write_str(" -x -a '")?;
    write_names(f, names)?;
    f.write_str("'")
}

// The values of an option that has one of some names, and none of any other.
fn names_of(word: &Word) -> &'static [&'static str] {
    match word.value() {
        Some(Value::Name(names)) => names,
        Some(Value::Text) | Some(Value::Number(_, _)) | None => &[],
    }
}

fn write_names<W: fmt::Write>(f: &mut fmt::Formatter<W>, names: &[&'static str]) -> fmt::Result {
    for name in names {
        write_pieces(f, &[*name, " "])?;
    }
    Ok(())
}

// Writes a text between two apostrophes, and what is after it.
fn write_quoted<W: fmt::Write>(f: &mut fmt::Formatter<W>, text: &str, after: &str) -> fmt::Result {
    for sign in text.chars() {
        match sign {
            '\'' => f.write_str("'\\''")?,
            sign => f.write_char(sign)?,
        }
    }
    f.write_str(after)
}
