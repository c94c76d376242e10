//! The command `eval`.
use crate::described::Described;
use crate::word::{Kind, Value, Word};
use crate::words::{CUBE_HELP, Words};

/// The command `eval`.
pub(crate) static EVAL: Described = Described {
    name: "eval",
    about: "Answers one query over five table files, and keeps nothing.",
    usage: "ssbcube eval --customer FILE --supplier FILE --part FILE
                    --date FILE --lineorder FILE --query Q
       ssbcube eval --tables FOLDER --query Q
       ssbcube eval ... [--set SET] [--by A,A] --agg G,G [CONDITION]...
       ssbcube eval ... [--order COLUMN[:desc]] [--limit N]
                    [--partial K/N] [--format FORMAT] [--decimals N]
                    [--output FILE [--overwrite]] [--timing] [--quiet] ...",
    help: CUBE_HELP,
    required: &[
        Words::Tables,
        Words::Own(&[Word {
            name: "lineorder",
            value: "FILE",
            help: "The fact table, such as lineorder.tbl",
            kind: Kind::OptionOr(Value::Text, &["tables"]),
        }]),
    ],
    optional: &[
        Words::Folder,
        Words::Own(&[Word {
            name: "query",
            value: "Q",
            help: "A query of the benchmark, 1.1 to 4.3",
            kind: Kind::Option(Value::Text),
        }]),
        Words::Layout,
        Words::Order,
        Words::Partial,
        Words::Cube,
        Words::Conditions,
        Words::Timing,
        Words::Quiet,
    ],
};
