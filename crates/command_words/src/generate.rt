//! The command `generate`.
use crate::described::Described;
use crate::word::{Kind, Value, Word};
use crate::words::Words;

/// The command `generate`.
pub(crate) static GENERATE: Described = Described {
    name: "generate",
    about: "Writes the five tables of the benchmark as files.",
    usage: "ssbcube generate --scale S FOLDER [--seed N] [--overwrite]",
    help: "S is a number from 0.01 to 100 with at most two digits after the point. At scale
1 there are 30,000 customers, 2,000 suppliers, 200,000 parts, 2,556 days and
1,500,000 orders of one to seven lines: some 6 million rows, a file of 600 MB.

It writes customer.tbl, supplier.tbl, part.tbl, date.tbl and lineorder.tbl into
FOLDER, which has to be there, and a line for each file once it is written.
Where one of them is there already it writes none, unless --overwrite is given.
The same scale and seed give the same bytes. The memory it takes does not grow
with the scale.

Domains and formulas are those of the benchmark; the random numbers are not
those of the benchmark's own generator.

Example:
  ssbcube generate --scale 0.1 tables",
    required: &[Words::Own(&[
        Word {
            name: "scale",
            value: "S",
            help: "The scale, 0.01 to 100",
            kind: Kind::Option(Value::Text),
        },
        Word {
            name: "folder",
            value: "FOLDER",
            help: "The folder of the files",
            kind: Kind::Plain(Value::Text),
        },
    ])],
    optional: &[Words::Own(&[
        Word {
            name: "seed",
            value: "N",
            help: "Other random numbers; 1 if left out",
            kind: Kind::Option(Value::Number(0, u64::MAX)),
        },
        Word {
            name: "overwrite",
            value: "",
            help: "Replaces the files that are there",
            kind: Kind::Flag,
        },
    ])],
};
