//! Runs of commands that add rows to the dimensions.
use cube_model::{Attr, Axis, Fault, MemberPlace};
use sample_sessions::{Expected, Given, Lines, Numbers};
use sample_star::{
    Asked, BY_CITY, Day, EVERY_ROW, FIRST_CUSTOMER, FIRST_DAY, FIRST_FACT, FIRST_PART,
    FIRST_SUPPLIER, Fact, Location, MOVED_CUSTOMER, NO_ROWS, ONE_CUSTOMER, Product, STRANGER, Star,
    THIRD_CUSTOMER,
};

/// The first customer, which is there.
const AGAIN: Star<'static> = Star {
    customers: &[FIRST_CUSTOMER],
    ..NO_ROWS
};

/// A customer whose city is of another nation, and a supplier that is there.
const MOVED: Star<'static> = Star {
    customers: &[MOVED_CUSTOMER],
    suppliers: &[FIRST_SUPPLIER],
    ..NO_ROWS
};

/// The same after a row that may be added.
const MOVED_AFTER_ANOTHER: Star<'static> = Star {
    customers: &[
        Location {
            key: 5,
            ..THIRD_CUSTOMER
        },
        MOVED_CUSTOMER,
    ],
    ..NO_ROWS
};

/// A part that is there, once more.
const SAME_PART: Star<'static> = Star {
    parts: &[
        Product {
            key: 3,
            ..FIRST_PART
        },
        FIRST_PART,
    ],
    ..NO_ROWS
};

/// A supplier of the region that means all of them.
const RESERVED: Star<'static> = Star {
    suppliers: &[Location {
        key: 3,
        city: "PERU     2",
        nation: "PERU",
        region: "ALL",
    }],
    ..NO_ROWS
};

/// A day whose month is of another year.
const MOVED_DAY: Star<'static> = Star {
    dates: &[Day {
        key: 19930106,
        year: "1994",
        ..FIRST_DAY
    }],
    ..NO_ROWS
};

/// The numbers after the first addition to a warehouse without batches.
const ADDED: Numbers = Numbers {
    batches: 0,
    rows: 0,
    additions: 1,
    target: 0,
    generation: 2,
    cuboids: &[],
};

/// How many rows the customers of each city have, of one batch of the third customer and the first.
const TWO_CITIES: Lines = &[(&["UNITED KI1"], 1), (&["UNITED ST1"], 1)];

/// A customer is added and has a row then. Refused additions change nothing, and leave their number to the next, which
/// is empty.
pub(crate) static ONE_CUSTOMER_MORE: [(Given, Expected); 22] = [
    (
        Given::Submit(1, &[STRANGER, FIRST_FACT]),
        Expected::Refused(Fault::UnknownCustomer { row: 1 }),
    ),
    (Given::Add(1, ONE_CUSTOMER), Expected::Done),
    (Given::Status, Expected::Numbers(ADDED)),
    (Given::Submit(1, &[STRANGER, FIRST_FACT]), Expected::Done),
    (Given::Query(1, BY_CITY), Expected::Answer(TWO_CITIES)),
    (
        Given::Add(2, AGAIN),
        Expected::Refused(Fault::DuplicateKey {
            axis: Axis::Customer,
            row: 1,
        }),
    ),
    (
        Given::Add(2, ONE_CUSTOMER),
        Expected::Refused(Fault::DuplicateKey {
            axis: Axis::Customer,
            row: 1,
        }),
    ),
    (
        Given::Add(2, SAME_PART),
        Expected::Refused(Fault::DuplicateKey {
            axis: Axis::Part,
            row: 2,
        }),
    ),
    (
        Given::Add(2, RESERVED),
        Expected::Refused(Fault::ReservedMember {
            place: MemberPlace::InDimension {
                axis: Axis::Supplier,
                row: 1,
            },
        }),
    ),
    (
        Given::Add(2, MOVED),
        Expected::Refused(Fault::HierarchyBroken {
            axis: Axis::Customer,
            row: 1,
        }),
    ),
    (
        Given::Add(2, MOVED_AFTER_ANOTHER),
        Expected::Refused(Fault::HierarchyBroken {
            axis: Axis::Customer,
            row: 2,
        }),
    ),
    (
        Given::Add(2, MOVED_DAY),
        Expected::Refused(Fault::HierarchyBroken {
            axis: Axis::Date,
            row: 1,
        }),
    ),
    // The number is looked at first.
    (
        Given::Add(1, ONE_CUSTOMER),
        Expected::Refused(Fault::Repeated),
    ),
    (Given::Add(0, NO_ROWS), Expected::Refused(Fault::Repeated)),
    (Given::Add(3, AGAIN), Expected::Refused(Fault::Gap)),
    (
        Given::Add(4_294_967_295, NO_ROWS),
        Expected::Refused(Fault::Gap),
    ),
    (
        Given::Status,
        Expected::Numbers(Numbers {
            batches: 1,
            rows: 2,
            generation: 3,
            ..ADDED
        }),
    ),
    (Given::Add(2, NO_ROWS), Expected::Done),
    (
        Given::Status,
        Expected::Numbers(Numbers {
            batches: 1,
            rows: 2,
            additions: 2,
            generation: 4,
            ..ADDED
        }),
    ),
    (Given::Query(1, BY_CITY), Expected::Answer(TWO_CITIES)),
    (Given::Query(0, BY_CITY), Expected::Answer(&[])),
    (Given::Audit, Expected::Audited(true)),
];

/// A row more of each dimension.
const ONE_OF_EACH: Star<'static> = Star {
    customers: &[THIRD_CUSTOMER],
    suppliers: &[Location {
        key: 3,
        city: "FRANCE   1",
        nation: "FRANCE",
        region: "EUROPE",
    }],
    parts: &[Product {
        key: 3,
        brand1: "MFGR#1211",
        ..FIRST_PART
    }],
    dates: &[Day {
        key: 19930106,
        ..FIRST_DAY
    }],
};

/// A row of all these.
const NEW_FACT: Fact<'static> = Fact {
    custkey: 3,
    suppkey: 3,
    partkey: 3,
    orderdate: 19930106,
    ..FIRST_FACT
};

const BY_EACH: Asked<'static> = Asked {
    columns: &[
        Attr::CustomerCity,
        Attr::SupplierCity,
        Attr::PartBrand1,
        Attr::DateKey,
    ],
    ..EVERY_ROW
};

const BY_SUPPLIER: Asked<'static> = Asked {
    columns: &[Attr::SupplierNation],
    ..EVERY_ROW
};

/// One addition of a row to each dimension, of which no key was known. The nation of the new supplier is before those
/// that there were.
pub(crate) static A_ROW_OF_EACH: [(Given, Expected); 9] = [
    (
        Given::Submit(
            1,
            &[
                FIRST_FACT,
                Fact {
                    suppkey: 3,
                    ..FIRST_FACT
                },
            ],
        ),
        Expected::Refused(Fault::UnknownSupplier { row: 2 }),
    ),
    (
        Given::Submit(
            1,
            &[Fact {
                partkey: 3,
                ..FIRST_FACT
            }],
        ),
        Expected::Refused(Fault::UnknownPart { row: 1 }),
    ),
    (
        Given::Submit(
            1,
            &[Fact {
                orderdate: 19930106,
                ..FIRST_FACT
            }],
        ),
        Expected::Refused(Fault::UnknownDate { row: 1 }),
    ),
    (Given::Submit(1, &[FIRST_FACT]), Expected::Done),
    (Given::Add(1, ONE_OF_EACH), Expected::Done),
    (Given::Submit(2, &[NEW_FACT]), Expected::Done),
    (
        Given::Status,
        Expected::Numbers(Numbers {
            batches: 2,
            rows: 2,
            generation: 4,
            ..ADDED
        }),
    ),
    (
        Given::Query(2, BY_EACH),
        Expected::Answer(&[
            (&["UNITED KI1", "UNITED KI5", "MFGR#1210", "19930105"], 1),
            (&["UNITED ST1", "FRANCE   1", "MFGR#1211", "19930106"], 1),
        ]),
    ),
    (
        Given::Query(2, BY_SUPPLIER),
        Expected::Answer(&[(&["FRANCE"], 1), (&["UNITED KINGDOM"], 1)]),
    ),
];
