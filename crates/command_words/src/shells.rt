//! The commands `manual` and `completions`.
use crate::described::Described;
use crate::word::{Kind, Value, Word};
use crate::words::Words;

/// The command `manual`.
pub(crate) static MANUAL: Described = Described {
    name: "manual",
    about: "Prints the manual page of the program.",
    usage: "ssbcube manual",
    help: "The page has what the help of each command says, in the macros of man.

Examples:
  ssbcube manual > ssbcube.1
  ssbcube manual | man -l -",
    required: &[],
    optional: &[],
};

/// The command `completions`.
pub(crate) static COMPLETIONS: Described = Described {
    name: "completions",
    about: "Prints a script that has a shell complete the program's words.",
    usage: "ssbcube completions SHELL",
    help: "SHELL is bash, zsh or fish.

Examples:
  ssbcube completions bash > ~/.local/share/bash-completion/completions/ssbcube
  ssbcube completions zsh > _ssbcube, in a folder of $fpath
  ssbcube completions fish > ~/.config/fish/completions/ssbcube.fish",
    required: &[Words::Own(&[Word {
        name: "shell",
        value: "SHELL",
        help: "The shell: bash, zsh or fish",
        kind: Kind::Plain(Value::Name(&["bash", "zsh", "fish"])),
    }])],
    optional: &[],
};
