//! The command `status`.
use crate::described::Described;
use crate::word::{Kind, Word};
use crate::words::Words;

/// The command `status`.
pub(crate) static STATUS: Described = Described {
    name: "status",
    about: "Prints the numbers of a warehouse.",
    usage: "ssbcube status DEV [--all] [--format FORMAT]",
    help: "It prints 'layout 2' where it was made in that layout; 'batches N' and 'rows N',
how many of each there are, and between them 'additions N', where rows were added
to the dimension tables; 'target N', up to which batch the last upkeep set out to
bring the stored cuboids; 'generation N', the number of commits; and 'cuboid V
mark N runs N cells N' for each stored cuboid: its view, and how many of the
first batches it holds.

With --all it prints 'sectors N', how many the file has, 'taken N' and 'free N' of
them, and 'room N batches': for how many more batches of the size of the last one
there is room, about, or of 65536 rows where there is none.

With --format csv, tsv or json the records have the fields name, value, view,
mark, runs and cells: of a number its name and value, of a cuboid the others.

Example:
  ssbcube status star.dev",
    required: &[Words::Device],
    optional: &[
        Words::Own(&[Word {
            name: "all",
            value: "",
            help: "Prints the sectors too, and the room that is left",
            kind: Kind::Flag,
        }]),
        Words::Format,
    ],
};
