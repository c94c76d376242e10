//! Examples that were worked out by hand: a star, fact rows, a query, and the lines of its answer.

use cube_model::{Agg, Attr, Fault, Kind, Measure, Order};
use sample_star::{
    AVERAGES, Asked, CUBE, Condition, DISCOUNTED, EVERY_ROW, FACTS, FIRST_CUSTOMER, FIRST_FACT,
    FIRST_PART, Fact, Location, Product, ROLLUP, STAR, Star, THIRD_FACT,
};

/// An example: the lines of an answer, as a report has them after its first one, or why it is
/// refused.
#[derive(Clone, Copy)]
pub struct Example {
    pub star: Star<'static>,
    pub facts: &'static [Fact<'static>],
    pub asked: Asked<'static>,
    pub lines: Result<&'static str, Fault>,
}

/// How many sample rows there are, by which other examples are checked.
const SAMPLE: Example = Example {
    star: STAR,
    facts: &FACTS,
    asked: EVERY_ROW,
    lines: Ok("3\nrows 1\n"),
};

/// Three brands whose texts begin alike.
const BRANDS: Star<'static> = Star {
    parts: &[
        Product {
            key: 3,
            brand1: "MFGR#222",
            category: "MFGR#22",
            mfgr: "MFGR#2",
        },
        Product {
            key: 4,
            brand1: "MFGR#2221",
            category: "MFGR#22",
            mfgr: "MFGR#2",
        },
        Product {
            key: 5,
            brand1: "MFGR#2229",
            category: "MFGR#22",
            mfgr: "MFGR#2",
        },
        FIRST_PART,
    ],
    ..STAR
};

/// Two regions: of one the name is the empty text, and that of the other begins as the word for all.
const ODD_REGIONS: Star<'static> = Star {
    customers: &[
        Location {
            region: "",
            ..FIRST_CUSTOMER
        },
        Location {
            key: 2,
            city: "",
            nation: "ALLEGORY",
            region: "ALLIED",
        },
    ],
    ..STAR
};

/// Revenue and profit by region and year.
const REGIONS: Asked<'static> = Asked {
    columns: &[Attr::CustomerRegion, Attr::DateYear],
    aggregates: &[
        Agg::Sum(Measure::Revenue),
        Agg::Min(Measure::Profit),
        Agg::Max(Measure::Profit),
    ],
    ..EVERY_ROW
};

/// The sum, the least and the greatest profit.
const PROFITS: Asked<'static> = Asked {
    aggregates: &[
        Agg::Sum(Measure::Profit),
        Agg::Min(Measure::Profit),
        Agg::Max(Measure::Profit),
    ],
    ..EVERY_ROW
};

/// An order by year, and then falling by an aggregate.
const BY_YEAR: Asked<'static> = Asked {
    columns: &[Attr::CustomerRegion, Attr::DateYear],
    order: Some(Order {
        column: 1,
        aggregate: 0,
    }),
    ..EVERY_ROW
};

/// A cube, or a rollup, by region.
const BY_REGION: Asked<'static> = Asked {
    kind: Kind::Cube,
    columns: &[Attr::CustomerRegion],
    ..EVERY_ROW
};

/// The prices of each region.
const PRICES: Asked<'static> = Asked {
    columns: &[Attr::CustomerRegion],
    aggregates: &[Agg::Sum(Measure::ExtendedPrice)],
    ..EVERY_ROW
};

const HALF: u64 = 4_611_686_018_427_387_904;

/// A row whose price is half of the least sum that passes the limit.
const DEAR: Fact<'static> = Fact {
    extendedprice: HALF,
    discount: 0,
    ..FIRST_FACT
};

/// Rows of which all but the first have a key that no row has, each in another dimension.
const STRANGERS: [Fact<'static>; 5] = [
    FIRST_FACT,
    Fact {
        custkey: 9,
        quantity: 18,
        ..FIRST_FACT
    },
    Fact {
        suppkey: 9,
        ..FIRST_FACT
    },
    Fact {
        partkey: 9,
        quantity: 20,
        ..FIRST_FACT
    },
    Fact {
        orderdate: 19990101,
        ..FIRST_FACT
    },
];

/// Plain queries: a count, each measure, conditions, and groups.
pub static PLAIN: [Example; 4] = [
    SAMPLE,
    // Each measure.
    Example {
        asked: Asked {
            aggregates: &[
                Agg::Sum(Measure::Quantity),
                Agg::Sum(Measure::ExtendedPrice),
                Agg::Sum(Measure::Revenue),
                Agg::Sum(Measure::SupplyCost),
                Agg::Sum(Measure::Discounted),
                Agg::Sum(Measure::Profit),
            ],
            ..EVERY_ROW
        },
        lines: Ok("66|3500|3415|2700|8500|715\nrows 1\n"),
        ..SAMPLE
    },
    Example {
        asked: DISCOUNTED,
        lines: Ok("2000\nrows 1\n"),
        ..SAMPLE
    },
    Example {
        asked: REGIONS,
        lines: Ok(
            "AMERICA|1997|1940|-60|-60\nEUROPE|1993|980|380|380\nEUROPE|1997|495|395|395\nrows 3\n",
        ),
        ..SAMPLE
    },
];

/// Answers over no row, over a range of texts, and where absolute values add up to the limit of a sum.
pub static BOUNDARIES: [Example; 3] = [
    // Over no row an answer has no line.
    Example {
        facts: &[],
        lines: Ok("rows 0\n"),
        ..SAMPLE
    },
    // A range goes by bytes, and a text is below those that it begins.
    Example {
        star: BRANDS,
        facts: &[
            Fact {
                partkey: 3,
                ..FIRST_FACT
            },
            Fact {
                partkey: 4,
                ..FIRST_FACT
            },
            Fact {
                partkey: 5,
                ..FIRST_FACT
            },
        ],
        asked: Asked {
            columns: &[Attr::PartBrand1],
            conditions: &[Condition::Between(Attr::PartBrand1, "MFGR#2221", "MFGR#2228")],
            ..EVERY_ROW
        },
        lines: Ok("MFGR#2221|1\nrows 1\n"),
    },
    // The absolute values of a sum add up to its limit.
    Example {
        facts: &[
            Fact {
                revenue: HALF,
                supplycost: 0,
                ..FIRST_FACT
            },
            Fact {
                revenue: 0,
                supplycost: HALF - 1,
                ..FIRST_FACT
            },
        ],
        asked: PROFITS,
        lines: Ok("1|-4611686018427387903|4611686018427387904\nrows 1\n"),
        ..SAMPLE
    },
];

/// Averages.
pub static AVERAGED: [Example; 3] = [
    // Averages are in lowest terms.
    Example {
        asked: AVERAGES,
        lines: Ok("22/1|715/3\nrows 1\n"),
        ..SAMPLE
    },
    Example {
        asked: Asked {
            conditions: &[Condition::OneOf(Attr::CustomerRegion, &["AMERICA"])],
            ..AVERAGES
        },
        lines: Ok("24/1|-60/1\nrows 1\n"),
        ..SAMPLE
    },
    // A gain and a loss of 5.
    Example {
        facts: &[
            Fact {
                revenue: 100,
                supplycost: 95,
                ..FIRST_FACT
            },
            Fact {
                revenue: 95,
                supplycost: 100,
                ..FIRST_FACT
            },
        ],
        asked: Asked {
            aggregates: &[Agg::Avg(Measure::Profit)],
            ..EVERY_ROW
        },
        lines: Ok("0/1\nrows 1\n"),
        ..SAMPLE
    },
];

/// Queries with an order.
pub static ORDERED: [Example; 2] = [
    // The counts tie within 1997, so these lines go by their keys.
    Example {
        asked: BY_YEAR,
        lines: Ok("EUROPE|1993|1\nAMERICA|1997|1\nEUROPE|1997|1\nrows 3\n"),
        ..SAMPLE
    },
    Example {
        asked: Asked {
            aggregates: &[Agg::Min(Measure::Profit)],
            ..BY_YEAR
        },
        lines: Ok("EUROPE|1993|380\nEUROPE|1997|395\nAMERICA|1997|-60\nrows 3\n"),
        ..SAMPLE
    },
];

/// Cubes and rollups.
pub static COARSER: [Example; 4] = [
    Example {
        asked: CUBE,
        lines: Ok(
            "AMERICA|1997|1|1940|1940/1\nAMERICA|ALL|1|1940|1940/1\nEUROPE|1993|1|980|980/1\nEUROPE|1997|1|495|495/1\nEUROPE|ALL|2|1475|1475/2\nALL|1993|1|980|980/1\nALL|1997|2|2435|2435/2\nALL|ALL|3|3415|3415/3\nrows 8\n",
        ),
        ..SAMPLE
    },
    Example {
        asked: ROLLUP,
        lines: Ok(
            "1993|199301|980\n1993|ALL|980\n1997|199712|2435\n1997|ALL|2435\nALL|ALL|3415\nrows 5\n",
        ),
        ..SAMPLE
    },
    Example {
        facts: &[],
        asked: CUBE,
        lines: Ok("rows 0\n"),
        ..SAMPLE
    },
    Example {
        asked: Asked {
            kind: Kind::Cube,
            ..EVERY_ROW
        },
        ..SAMPLE
    },
];

/// Cubes and rollups with odd texts, and whose coarser groups are no sums of finer ones or reach the limit of a sum.
pub static COARSER_BOUNDARIES: [Example; 3] = [
    Example {
        star: ODD_REGIONS,
        asked: BY_REGION,
        lines: Ok("|2\nALLIED|1\nALL|3\nrows 3\n"),
        ..SAMPLE
    },
    // The greatest and the least of a coarser group are those of the finer ones, and not their sums.
    Example {
        asked: Asked {
            kind: Kind::Rollup,
            aggregates: &[Agg::Min(Measure::Profit), Agg::Max(Measure::Profit)],
            ..BY_REGION
        },
        lines: Ok("AMERICA|-60|-60\nEUROPE|380|395\nALL|-60|395\nrows 3\n"),
        ..SAMPLE
    },
    // The sum reaches its limit in each coarser set.
    Example {
        facts: &[
            Fact {
                revenue: HALF,
                supplycost: 0,
                ..FIRST_FACT
            },
            Fact {
                revenue: HALF - 1,
                supplycost: 0,
                ..THIRD_FACT
            },
        ],
        asked: Asked {
            kind: Kind::Rollup,
            columns: &[Attr::CustomerRegion, Attr::DateYear],
            aggregates: &[Agg::Sum(Measure::Revenue)],
            ..EVERY_ROW
        },
        lines: Ok(
            "EUROPE|1993|4611686018427387904\nEUROPE|1997|4611686018427387903\nEUROPE|ALL|9223372036854775807\nALL|ALL|9223372036854775807\nrows 4\n",
        ),
        ..SAMPLE
    },
];

/// Rows of unknown keys, and rows whose prices add up to more than the limit.
pub static AT_LIMITS: [Example; 3] = [
    // Rows of unknown keys count where a query looks at no dimension.
    Example {
        facts: &STRANGERS,
        asked: Asked {
            conditions: &[Condition::Quantity(18, 255)],
            aggregates: &[Agg::Count, Agg::Sum(Measure::Quantity)],
            ..EVERY_ROW
        },
        lines: Ok("2|38\nrows 1\n"),
        ..SAMPLE
    },
    // Elsewhere they are refused.
    Example {
        facts: &STRANGERS,
        asked: PRICES,
        lines: Err(Fault::BadLayout),
        ..SAMPLE
    },
    // So are rows whose prices add up to more than the limit.
    Example {
        facts: &[DEAR, DEAR],
        asked: PRICES,
        lines: Err(Fault::BadLayout),
        ..SAMPLE
    },
];

/// Queries that are not proper: without an aggregate, with seven columns, with one of them twice, and with a list of no
/// text.
pub static IMPROPER: [Example; 4] = [
    Example {
        asked: Asked {
            aggregates: &[],
            ..EVERY_ROW
        },
        lines: Err(Fault::BadQuery),
        ..SAMPLE
    },
    Example {
        asked: Asked {
            columns: &[
                Attr::CustomerCity,
                Attr::CustomerNation,
                Attr::CustomerRegion,
                Attr::SupplierCity,
                Attr::SupplierNation,
                Attr::SupplierRegion,
                Attr::DateYear,
            ],
            ..EVERY_ROW
        },
        lines: Err(Fault::BadQuery),
        ..SAMPLE
    },
    Example {
        asked: Asked {
            columns: &[Attr::DateYear, Attr::DateYear],
            ..EVERY_ROW
        },
        lines: Err(Fault::BadQuery),
        ..SAMPLE
    },
    Example {
        asked: Asked {
            conditions: &[Condition::OneOf(Attr::DateYear, &[])],
            ..EVERY_ROW
        },
        lines: Err(Fault::BadQuery),
        ..SAMPLE
    },
];
