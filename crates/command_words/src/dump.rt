//! The commands `dump` and `members`.
use crate::described::Described;
use crate::word::{Kind, Value, Word};
use crate::words::Words;

/// The command `dump`.
pub(crate) static DUMP: Described = Described {
    name: "dump",
    about: "Writes the rows of a warehouse as tables again.",
    usage: "ssbcube dump DEV [--batch N]
       ssbcube dump DEV [--batch N] --tables FOLDER [--overwrite]",
    help: "It prints the fact rows of all batches, or of batch N, in their order, as lines
of lineorder.tbl. Loaded again they are the same rows. A number is written
without leading zeros, and a line has no bar at its end.

With --tables it writes customer.tbl, supplier.tbl, part.tbl, date.tbl and
lineorder.tbl into FOLDER, which has to be there, and a line for each file once
it is written. Columns of dimension tables that a warehouse does not keep, such
as names and addresses, are empty. Where one of the files is there already it
writes none, unless --overwrite is given.

Examples:
  ssbcube dump star.dev --batch 3
  ssbcube dump star.dev --tables tables",
    required: &[Words::Device],
    optional: &[Words::Own(&[
        Word {
            name: "batch",
            value: "N",
            help: "The rows of one batch",
            kind: Kind::Option(Value::Number(1, u32::MAX as u64)),
        },
        Word {
            name: "tables",
            value: "FOLDER",
            help: "Writes the five tables into a folder",
            kind: Kind::Option(Value::Text),
        },
        Word {
            name: "overwrite",
            value: "",
            help: "Replaces the files that are there",
            kind: Kind::FlagWith("tables"),
        },
    ])],
};

/// The command `members`.
pub(crate) static MEMBERS: Described = Described {
    name: "members",
    about: "Lists the members of an attribute.",
    usage: "ssbcube members DEV ATTRIBUTE",
    help: "It prints a header, and a line for each member in the order of bytes: the member,
its upper members where it has some, such as the nation and the region of a city,
and how many rows of the dimension table have it; at the end 'members N'.

Attributes:
  c_city c_nation c_region    s_city s_nation s_region
  p_brand1 p_category p_mfgr  d_datekey d_yearmonthnum d_year
  d_yearmonth d_weeknuminyear

Example:
  ssbcube members star.dev c_nation",
    required: &[
        Words::Device,
        Words::Own(&[Word {
            name: "attribute",
            value: "ATTRIBUTE",
            help: "The attribute, such as c_city",
            kind: Kind::Plain(Value::Text),
        }]),
    ],
    optional: &[],
};
