//! The command `create`.
use crate::described::Described;
use crate::word::{Kind, Value, Word};
use crate::words::Words;

/// The command `create`.
pub(crate) static CREATE: Described = Described {
    name: "create",
    about: "Makes a warehouse in a file, with the four dimension tables.",
    usage: "ssbcube create DEV --sectors N --customer FILE --supplier FILE
                      --part FILE --date FILE [--layout N] [--overwrite]
       ssbcube create DEV --sectors N --tables FOLDER ...
       ssbcube create DEV --rows N ...
       ssbcube create DEV --for LINEORDER ...",
    help: "DEV is a file of N sectors of 512 bytes. It is made where it is absent; an
empty file is taken too, and one of just that length whose first two sectors
are all zero, as a create that was cut off leaves it. With --overwrite it may
hold anything but a warehouse. The file is sparse.

N is 64 to 4294967295, or a size such as 512M or 4G: K, M and G are 1,024
bytes, and these times 1,024 and times 1,048,576.

How many sectors: a batch of 65,536 rows takes some 9,100. Scale 1 of the
benchmark, 6 million rows, takes some 850,000, so --sectors 1000000, a file of
512 MB, has room for it. A warehouse cannot grow afterwards.

With --rows N, or --for FILE and the rows that the file has, about, it works the
sectors out: for batches of 65,536 rows, eight cuboids, and some more.

With --tables the tables are customer.tbl, supplier.tbl, part.tbl and date.tbl of
FOLDER. A table that has its own option too is the file of that option.

In layout 1 the file keeps the dimension tables and the batches, in layout 2 the
ship modes of the fact rows too, each once. They are then 65,535 at most, and none
of them is ALL. 'ssbcube migrate' moves a warehouse from layout 1 to layout 2.

Examples:
  ssbcube create star.dev --sectors 1000000 --customer customer.tbl \\
      --supplier supplier.tbl --part part.tbl --date date.tbl
  ssbcube create star.dev --for tables/lineorder.tbl --tables tables

It prints 'created 1000000 sectors' once the warehouse is durable. After a
refusal a file that it made is removed again.",
    required: &[
        Words::Device,
        Words::Own(&[Word {
            name: "sectors",
            value: "N",
            help: "The sectors of the file, 64 to 4294967295, or its size, as 4G",
            kind: Kind::OptionOr(Value::Text, &["rows", "for"]),
        }]),
        Words::Tables,
    ],
    optional: &[
        Words::Folder,
        Words::Own(&[
            Word {
                name: "rows",
                value: "N",
                help: "As many sectors as N fact rows take, and some more",
                kind: Kind::OptionNot(Value::Number(0, u64::MAX), &["sectors", "for"]),
            },
            Word {
                name: "for",
                value: "LINEORDER",
                help: "As many as the rows of a fact table take, and some more",
                kind: Kind::OptionNot(Value::Text, &["sectors"]),
            },
            Word {
                name: "layout",
                value: "N",
                help: "1, or 2, which keeps the ship modes too; 1 if left out",
                kind: Kind::Option(Value::Number(1, 2)),
            },
            Word {
                name: "overwrite",
                value: "",
                help: "Replaces what the file holds, if that is no warehouse",
                kind: Kind::Flag,
            },
        ]),
    ],
};
