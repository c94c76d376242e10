//! Words that several commands have.
use crate::word::{Kind, Value, Word};

/// Words of a command, those that it has alone and those that several have.
#[derive(Clone, Copy)]
pub(crate) enum Words {
    Own(&'static [Word]),
    /// The file of a warehouse.
    Device,
    /// A query of the benchmark.
    Query,
    /// A prefix of the batches.
    AsOf,
    /// The four dimension tables.
    Tables,
    /// A folder of the tables.
    Folder,
    /// An ad-hoc query but its conditions.
    Cube,
    /// The conditions of an ad-hoc query.
    Conditions,
    /// A query of the benchmark, or the conditions of an ad-hoc query.
    Asked,
    /// How a report is written, and where.
    Layout,
    /// The order of a report's lines, and how many of them there are.
    Order,
    /// The part of a partial report.
    Partial,
    /// How the numbers of a command are written.
    Format,
    /// How long the command took.
    Timing,
    /// No progress and no summary.
    Quiet,
}

impl Words {
    /// Each of the words.
    pub(crate) fn each(self) -> &'static [Word] {
        match self {
            Words::Own(words) => words,
            Words::Device => &DEVICE,
            Words::Query => &QUERY,
            Words::AsOf => &AS_OF,
            Words::Tables => &DIMENSION_TABLES,
            Words::Folder => &FOLDER,
            Words::Cube => &CUBE_WORDS,
            Words::Conditions => &CONDITIONS,
            Words::Asked => &ASKED,
            Words::Layout => &LAYOUT_WORDS,
            Words::Order => &ORDER,
            Words::Partial => &PARTIAL,
            Words::Format => &FORMAT,
            Words::Timing => &TIMING,
            Words::Quiet => &QUIET,
        }
    }
}

/// What can be asked, and what a refusal looks like.
pub(crate) const CUBE_HELP: &str = "Sets:
  plain   groups by all columns
  rollup  by each beginning of the columns, the whole last
  cube    by each choice of the columns
  ALL in a column means that the line is not grouped by it.

Aggregates, with a measure M:
  count sum:M min:M max:M avg:M, or as a header has it: 'sum(M)', quoted
  An average is a fraction in lowest terms, such as 1475/2.

Measures:
  quantity extendedprice revenue supplycost
  discounted (extendedprice times discount) profit (revenue less supplycost)

Attributes, for --by and for conditions:
  c_city c_nation c_region    s_city s_nation s_region
  p_brand1 p_category p_mfgr  d_datekey d_yearmonthnum d_year
  d_yearmonth d_weeknuminyear lo_shipmode
  A query with lo_shipmode, the ship mode, is served by the views that group by
  it, which layout 2 has; --partial takes none.

Conditions, which all have to hold. Quote them, since the shell reads |:
  ATTRIBUTE=TEXT|TEXT  one of some texts
  ATTRIBUTE:LOW|HIGH   a range by bytes, with both ends
  quantity:LOW|HIGH    integers from 0 to 255; discount likewise

Examples of queries, to follow the other words of the command:
  --by d_year,p_brand1 --agg sum:revenue 'p_category=MFGR#12'
  --set cube --by c_region,d_year --agg count,avg:revenue
  --set rollup --by d_year,d_yearmonthnum --agg sum:revenue

Formats, for --format:
  bars  fields separated by bars, and the number of lines at the end
  csv   as RFC 4180 has it, with CR LF after a line; ALL is an empty field, and
        an empty text two quotation marks
  tsv   fields separated by tabs; a tab, LF, CR or backslash in a text is
        \\t \\n \\r or \\\\; ALL is an empty field
  json  an object a line; ALL is null
  An average is a fraction in lowest terms, and in json an object such as
  {\"sum\":1475,\"count\":2}. With --decimals N it is a decimal with N digits
  after the point, rounded half up: 737.5 is 738 with none, and -737.5 -738.

Orders, for --order: a column or an aggregate as the header names it, such as
d_year or 'sum(revenue)', or as the words have it, such as sum:revenue; with
:desc after it the greatest come first, else the least. ALL comes after each
member. Lines that are equal there are in the order of their columns. --limit
takes the first N lines of the report, in the order of --order, if it is given.

A partial report, of --partial K/N, is of the rows of one of N warehouses with
the same dimension rows: a head that names the part, the query and a digest of
the dimension rows, and after it the counts and sums of which 'ssbcube merge'
makes the report over all rows.

The report goes to standard output, or to a file with --output: that is there
once it is whole, and one that was there is replaced with --overwrite only. A
refusal goes to standard error with status 1: a line such as 'fault 24 BadQuery',
followed by an explanation where more is known.";

static DEVICE: [Word; 1] = [Word {
    name: "device",
    value: "DEV",
    help: "The file of the warehouse",
    kind: Kind::Plain(Value::Text),
}];

static QUERY: [Word; 1] = [Word {
    name: "query",
    value: "Q",
    help: "A query of the benchmark, 1.1 to 4.3",
    kind: Kind::PlainOr(Value::Text, &["queries"]),
}];

static FORMAT: [Word; 1] = [Word {
    name: "format",
    value: "FORMAT",
    help: "How it is written; bars if left out",
    kind: Kind::Option(Value::Name(&["bars", "csv", "tsv", "json"])),
}];

static AS_OF: [Word; 1] = [Word {
    name: "as-of",
    value: "N",
    help: "Over the first N batches; over all if left out",
    kind: Kind::Option(Value::Number(0, u32::MAX as u64)),
}];

static DIMENSION_TABLES: [Word; 4] = [
    Word {
        name: "customer",
        value: "FILE",
        help: "The customer table, such as customer.tbl",
        kind: Kind::OptionOr(Value::Text, &["tables"]),
    },
    Word {
        name: "supplier",
        value: "FILE",
        help: "The supplier table, such as supplier.tbl",
        kind: Kind::OptionOr(Value::Text, &["tables"]),
    },
    Word {
        name: "part",
        value: "FILE",
        help: "The part table, such as part.tbl",
        kind: Kind::OptionOr(Value::Text, &["tables"]),
    },
    Word {
        name: "date",
        value: "FILE",
        help: "The date table, such as date.tbl",
        kind: Kind::OptionOr(Value::Text, &["tables"]),
    },
];

static FOLDER: [Word; 1] = [Word {
    name: "tables",
    value: "FOLDER",
    help: "The folder of the tables that have no option",
    kind: Kind::Option(Value::Text),
}];

static CUBE_WORDS: [Word; 3] = [
    Word {
        name: "set",
        value: "SET",
        help: "Groupings: plain, rollup or cube; plain if left out",
        kind: Kind::Option(Value::Text),
    },
    Word {
        name: "by",
        value: "A,A",
        help: "Group columns, such as d_year,p_brand1",
        kind: Kind::Option(Value::Text),
    },
    Word {
        name: "agg",
        value: "G,G",
        help: "Aggregates, such as count,sum:revenue",
        kind: Kind::Option(Value::Text),
    },
];

static CONDITIONS: [Word; 1] = [Word {
    name: "condition",
    value: "CONDITION",
    help: "What all rows meet, such as d_year=1997 or 'quantity:0|24'",
    kind: Kind::Rest,
}];

static ASKED: [Word; 1] = [Word {
    name: "asked",
    value: "Q|CONDITION",
    help: "A query of the benchmark, or what all rows meet, such as d_year=1997",
    kind: Kind::Rest,
}];

static LAYOUT_WORDS: [Word; 4] = [
    Word {
        name: "format",
        value: "FORMAT",
        help: "How the report is written; bars if left out",
        kind: Kind::Option(Value::Name(&["bars", "csv", "tsv", "json"])),
    },
    Word {
        name: "decimals",
        value: "N",
        help: "Averages as decimals, with N digits after the point",
        kind: Kind::Option(Value::Number(0, 18)),
    },
    Word {
        name: "output",
        value: "FILE",
        help: "Writes the report to a new file",
        kind: Kind::Option(Value::Text),
    },
    Word {
        name: "overwrite",
        value: "",
        help: "Replaces the file of --output, if it is there",
        kind: Kind::FlagWith("output"),
    },
];

static ORDER: [Word; 2] = [
    Word {
        name: "order",
        value: "COLUMN",
        help: "Sorts the lines by a column or an aggregate, with :desc descending",
        kind: Kind::OptionNot(Value::Text, &["partial"]),
    },
    Word {
        name: "limit",
        value: "N",
        help: "The first N lines alone",
        kind: Kind::OptionNot(Value::Number(0, u32::MAX as u64), &["partial"]),
    },
];

static PARTIAL: [Word; 1] = [Word {
    name: "partial",
    value: "K/N",
    help: "Writes a partial report, of part K of N of the rows",
    kind: Kind::OptionNot(Value::Text, &["format", "decimals"]),
}];

static TIMING: [Word; 1] = [Word {
    name: "timing",
    value: "",
    help: "Says at the end how long it took",
    kind: Kind::Flag,
}];

static QUIET: [Word; 1] = [Word {
    name: "quiet",
    value: "",
    help: "Says nothing of how far it is, and nothing at the end",
    kind: Kind::Flag,
}];
