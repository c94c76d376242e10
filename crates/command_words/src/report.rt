//! The command `report`.
use crate::described::Described;
use crate::word::{Kind, Value, Word};
use crate::words::Words;

/// The command `report`.
pub(crate) static REPORT: Described = Described {
    name: "report",
    about: "Answers a query of the benchmark over a warehouse.",
    usage: "ssbcube report DEV Q [--as-of N] [--format FORMAT] [--decimals N]
                      [--output FILE [--overwrite]] [--timing]
       ssbcube report DEV Q --partial K/N [--as-of N] ...
       ssbcube report DEV --queries FILE [--as-of N] [--decimals N]
                      [--output FILE [--overwrite]] [--timing]",
    help: "Q, a query of the benchmark:
  1.1 1.2 1.3  2.1 2.2 2.3  3.1 3.2 3.3 3.4  4.1 4.2 4.3
  Those of the third flight are in order by year and descending revenue.
  With Q of 'all' it answers the thirteen one after another, each after a line
  such as 'query 1.1', written with bars.

With --queries it answers the queries of a file in the same way, each after a
line with 'query' and the line of the file. FILE has a query a line: one of the
benchmark, such as 3.1, or the words of 'ssbcube cube' but --as-of and those of
formats, quoted as for a shell. '#' begins a comment. A number before a query is
for 'choose --for', and passed over here. All lines are read before the first
query is answered. FILE of - is standard input.

The formats and --output are those of 'ssbcube cube': 'ssbcube cube --help' has
them.

Examples:
  ssbcube report star.dev 3.1
  ssbcube report star.dev 3.1 --as-of 12
  ssbcube report star.dev 3.1 --format csv --output q31.csv
  ssbcube report star.dev --queries queries.txt",
    required: &[Words::Device, Words::Query],
    optional: &[
        Words::Own(&[Word {
            name: "queries",
            value: "FILE",
            help: "A file of queries, one a line, in place of Q; - is standard input",
            kind: Kind::OptionNot(Value::Text, &["query", "partial"]),
        }]),
        Words::AsOf,
        Words::Layout,
        Words::Partial,
        Words::Timing,
    ],
};
