//! The command `demo`.
use crate::described::Described;

/// The command `demo`.
pub(crate) static DEMO: Described = Described {
    name: "demo",
    about: "Shows what a warehouse does, on a disk in memory.",
    usage: "ssbcube demo",
    help: "It makes a warehouse of sample tables that are part of the program, loads it until
the power fails within a commit, opens what the disk has kept, loads the rest,
chooses cuboids and brings them up to date, and prints three reports and a CUBE.
Before each step it prints the command that does it on a file. It reads no file
and writes none.",
    required: &[],
    optional: &[],
};
