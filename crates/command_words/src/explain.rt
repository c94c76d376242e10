//! The command `explain`.
use crate::described::Described;
use crate::word::{Kind, Word};
use crate::words::Words;

/// The command `explain`.
pub(crate) static EXPLAIN: Described = Described {
    name: "explain",
    about: "Says how a query of a warehouse is answered, and what that reads.",
    usage: "ssbcube explain DEV Q [--as-of N] [--all] [--format FORMAT]
       ssbcube explain DEV [--as-of N] [--all] [--format FORMAT]
                       [--set SET] [--by A,A] --agg G,G [CONDITION]...",
    help: "Q is a query of the benchmark, 1.1 to 4.3. An ad-hoc query has the words of
'ssbcube cube': 'ssbcube cube --help' lists them. One with lo_shipmode is served
by the views that group by ship mode, which layout 2 has.

It prints the plan by which the query is answered, and after it each other plan
by which it could be, such as
  plan view 248 ALL|ALL|mfgr|day mark 1 tail 1 cost 3
  other scan tail 2 cost 4
A view is read from the cells of its stored cuboid, which hold the first batches
up to its mark; a scan reads no cells. The tail is how many batches are read as
fact rows: those after the mark. The cost is how many cells and fact rows are
read together, and the plan with the lowest cost is taken. The query itself is
not asked.

With --all it prints, of the plan that is taken, 'batches N' that are read as
fact rows, 'columns' and the columns that are read of them (all, where the query
has lo_shipmode), 'bytes N' of these columns and of the cells at most, and
'groups N', how many groups the report has at most.

With --format csv, tsv or json the records of plans have the fields plan, which
is 'taken' or 'other', view, customer, supplier, part, date, shipmode, mark, tail
and cost; those of a view are empty for a scan. --all has no such record.

Examples:
  ssbcube explain star.dev 3.1
  ssbcube explain star.dev --by d_year --agg sum:revenue
  ssbcube explain star.dev --by d_year --agg sum:revenue c_region=ASIA",
    required: &[Words::Device],
    optional: &[
        Words::Own(&[Word {
            name: "all",
            value: "",
            help: "Prints what is read too, and how many groups there are at most",
            kind: Kind::Flag,
        }]),
        Words::AsOf,
        Words::Format,
        Words::Cube,
        Words::Asked,
    ],
};
