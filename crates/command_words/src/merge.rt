//! The command `merge`.
use crate::described::Described;
use crate::word::{Kind, Word};
use crate::words::Words;

/// The command `merge`.
pub(crate) static MERGE: Described = Described {
    name: "merge",
    about: "Merges partial reports into the report over all rows.",
    usage: "ssbcube merge [--order COLUMN[:desc]] [--limit N]
                     [--format FORMAT] [--decimals N]
                     [--output FILE [--overwrite]] FILE...
       ssbcube merge --partial [--output FILE [--overwrite]] FILE...",
    help: "Each FILE is what a command with --partial K/N wrote, or - for standard input.
They have the same query, the same N and the same dimension rows, and among them
each part from 1 to N once, in any order. The report is the one of a warehouse
with the rows of all parts, and is written as --format and the other options of
'ssbcube cube' say.

With --partial the parts may be some of the N. A partial report of all of them
together is written, which is merged with others later.

A file that is cut off, changed or given twice is refused, and so are a missing
part, another query and other dimension rows; an explanation names the file and
its line. Two parts that were loaded with the same rows cannot be found out.

Examples:
  ssbcube merge 1.part 2.part 3.part
  ssbcube merge --order 'sum(revenue):desc' --limit 10 *.part
  ssbcube merge --partial --output 1-16.part 1.part 2.part 3.part",
    required: &[Words::Own(&[Word {
        name: "file",
        value: "FILE",
        help: "A partial report; - is standard input",
        kind: Kind::Several,
    }])],
    optional: &[
        Words::Layout,
        Words::Order,
        Words::Own(&[Word {
            name: "partial",
            value: "",
            help: "Writes a partial report of the parts together",
            kind: Kind::FlagNot(&["format", "decimals"]),
        }]),
    ],
};
