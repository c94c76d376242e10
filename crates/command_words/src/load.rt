//! The command `load`.
use crate::described::Described;
use crate::word::{Kind, Value, Word};
use crate::words::Words;
use cube_model::limits::MOST_BATCH_ROWS;

/// The command `load`.
pub(crate) static LOAD: Described = Described {
    name: "load",
    about: "Loads the rows of a fact table into a warehouse, batch by batch.",
    usage: "ssbcube load DEV --first N [--rows N] [--quiet] FILE...",
    help: "The file is cut into batches of --rows rows, numbered from --first on. A FILE
of - is standard input. Several files are cut as one, in their order: a batch may
begin in one and end in the next, and a last line without its end stays a line.
Give all of them again, and in the same order, to resume such a load.

'batch 1 rows 65536' is printed once the batch is durable: it survives a crash
at any point. A batch is stored whole or not at all. A batch whose number is
stored already is compared with it, row by row: 'batch 1 skipped' means that
they are equal; if they differ the load ends. 'batches N' at the end is how
many the warehouse has.

To resume a load that was interrupted, give the same command again. The first
refusal ends a load, and the batches before it stay. A further file continues
with the number after the last batch; 'ssbcube status DEV' prints how many
there are.

A batch of 65536 rows takes some 9100 sectors. Where the free sectors are too
few for the whole file a note says so first, and the load goes on until it is
full. A warehouse cannot grow: create another file with more --sectors, and
load all files into it.

Examples:
  ssbcube load star.dev --first 1 lineorder.tbl
  ssbcube load star.dev --first 93 more.tbl
  ssbcube load star.dev --first 1 part1.tbl part2.tbl part3.tbl",
    required: &[
        Words::Device,
        Words::Own(&[
            Word {
                name: "lineorder",
                value: "FILE",
                help: "The fact table, such as lineorder.tbl; - is standard input",
                kind: Kind::Several,
            },
            Word {
                name: "first",
                value: "N",
                help: "The number of the first batch, 1 or more",
                kind: Kind::Option(Value::Number(1, u32::MAX as u64)),
            },
        ]),
    ],
    optional: &[
        Words::Own(&[Word {
            name: "rows",
            value: "N",
            help: "The rows of a batch, 1 to 65536; 65536 if left out",
            kind: Kind::Option(Value::Number(1, MOST_BATCH_ROWS as u64)),
        }]),
        Words::Quiet,
    ],
};
