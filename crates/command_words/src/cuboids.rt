//! The commands `choose`, `upkeep` and `audit`.
use crate::described::Described;
use crate::word::{Kind, Value, Word};
use crate::words::Words;

/// The command `choose`.
pub(crate) static CHOOSE: Described = Described {
    name: "choose",
    about: "Chooses the cuboids that a warehouse stores.",
    usage: "ssbcube choose DEV K [--for FILE] [--format FORMAT]",
    help: "A cuboid holds the fact rows grouped by one level of each dimension, ALL where
it does not group by one: a count, and the sum, minimum and maximum of each
measure. K views are chosen one by one, 0 to 16, each time the one that spares
most rows; its benefit is how many rows it spares over all views that its cells
can answer. The choice ends early where no view has a benefit any more.

It prints a line for each, in the order of choice, such as
'view 59 city|ALL|mfgr|ALL benefit 8': customer, supplier, part, date. A view
that is stored already keeps its cells, a new one is empty until the next
upkeep, and all others are dropped. K of 0 drops all.

With --for it chooses for the queries of a file, one a line: a query of the
benchmark, such as 3.1, or the words of 'ssbcube cube' but --as-of, quoted as
for a shell. A number before them says how often the query is asked; a line given
twice counts twice. '#' begins a comment. A query needs the coarsest view that
serves it, and only these views count in a benefit. A query with a condition on
quantity or discount needs none: a note names it, and it does not count. One with
lo_shipmode is refused. At a tie the view of the greatest number is taken. FILE of
- is standard input.

With --format csv, tsv or json the records have the fields view, customer,
supplier, part, date and benefit; ALL is an empty field, and null in json.

Examples:
  ssbcube choose star.dev 8
  ssbcube choose star.dev 4 --for queries.txt
  ssbcube upkeep star.dev",
    required: &[
        Words::Device,
        Words::Own(&[Word {
            name: "views",
            value: "K",
            help: "How many views, 0 to 16",
            kind: Kind::Plain(Value::Number(0, u8::MAX as u64)),
        }]),
    ],
    optional: &[
        Words::Own(&[Word {
            name: "for",
            value: "FILE",
            help: "A file of queries, one a line, to choose for; - is standard input",
            kind: Kind::Option(Value::Text),
        }]),
        Words::Format,
    ],
};

/// The command `upkeep`.
pub(crate) static UPKEEP: Described = Described {
    name: "upkeep",
    about: "Brings each stored cuboid to all batches.",
    usage: "ssbcube upkeep DEV [--quiet]",
    help: "Each stored cuboid gets the cells of the batches that it does not hold yet, in
a commit of its own, which a crash leaves done or not begun. 'upkeep done' is
printed once all hold all batches. A cuboid that would have more than
262144 cells is passed over and named at the end.

Load first, then bring cuboids up to date: one upkeep for many batches is
cheaper than one for each.

Example:
  ssbcube upkeep star.dev",
    required: &[Words::Device],
    optional: &[Words::Quiet],
};

/// The command `audit`.
pub(crate) static AUDIT: Described = Described {
    name: "audit",
    about: "Says whether each stored cuboid is right.",
    usage: "ssbcube audit DEV",
    help: "Each stored cuboid is worked out anew from the fact rows of the batches that
it holds, and compared. It prints 'audit yes', or 'audit no' with status 1.

Example:
  ssbcube audit star.dev",
    required: &[Words::Device],
    optional: &[],
};
