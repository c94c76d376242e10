//! The conditions of the benchmark's queries, as they are in the program.
use cube_model::Attr;

/// A condition whose texts are the program's own.
#[derive(Clone, Copy)]
pub enum Filter {
    Is(Attr, &'static str),
    Either(Attr, &'static str, &'static str),
    Between(Attr, &'static str, &'static str),
    Quantity(u8, u8),
    Discount(u8, u8),
}

const FROM_1992_TO_1997: Filter = Filter::Between(Attr::DateYear, "1992", "1997");

const IN_1997_OR_1998: Filter = Filter::Either(Attr::DateYear, "1997", "1998");

const CUSTOMER_CITIES: Filter = Filter::Either(Attr::CustomerCity, "UNITED KI1", "UNITED KI5");

const SUPPLIER_CITIES: Filter = Filter::Either(Attr::SupplierCity, "UNITED KI1", "UNITED KI5");

const AMERICAN_CUSTOMERS: Filter = Filter::Is(Attr::CustomerRegion, "AMERICA");

const AMERICAN_SUPPLIERS: Filter = Filter::Is(Attr::SupplierRegion, "AMERICA");

const TWO_MAKERS: Filter = Filter::Either(Attr::PartMfgr, "MFGR#1", "MFGR#2");

pub const Q11: &[Filter] = &[
    Filter::Is(Attr::DateYear, "1993"),
    Filter::Discount(1, 3),
    Filter::Quantity(0, 24),
];

pub const Q12: &[Filter] = &[
    Filter::Is(Attr::DateYearmonthnum, "199401"),
    Filter::Discount(4, 6),
    Filter::Quantity(26, 35),
];

pub const Q13: &[Filter] = &[
    Filter::Is(Attr::DateWeeknuminyear, "6"),
    Filter::Is(Attr::DateYear, "1994"),
    Filter::Discount(5, 7),
    Filter::Quantity(26, 35),
];

pub const Q21: &[Filter] = &[
    Filter::Is(Attr::PartCategory, "MFGR#12"),
    AMERICAN_SUPPLIERS,
];

pub const Q22: &[Filter] = &[
    Filter::Between(Attr::PartBrand1, "MFGR#2221", "MFGR#2228"),
    Filter::Is(Attr::SupplierRegion, "ASIA"),
];

pub const Q23: &[Filter] = &[
    Filter::Is(Attr::PartBrand1, "MFGR#2239"),
    Filter::Is(Attr::SupplierRegion, "EUROPE"),
];

pub const Q31: &[Filter] = &[
    Filter::Is(Attr::CustomerRegion, "ASIA"),
    Filter::Is(Attr::SupplierRegion, "ASIA"),
    FROM_1992_TO_1997,
];

pub const Q32: &[Filter] = &[
    Filter::Is(Attr::CustomerNation, "UNITED STATES"),
    Filter::Is(Attr::SupplierNation, "UNITED STATES"),
    FROM_1992_TO_1997,
];

pub const Q33: &[Filter] = &[CUSTOMER_CITIES, SUPPLIER_CITIES, FROM_1992_TO_1997];

pub const Q34: &[Filter] = &[
    CUSTOMER_CITIES,
    SUPPLIER_CITIES,
    Filter::Is(Attr::DateYearmonth, "Dec1997"),
];

pub const Q41: &[Filter] = &[AMERICAN_CUSTOMERS, AMERICAN_SUPPLIERS, TWO_MAKERS];

pub const Q42: &[Filter] = &[
    AMERICAN_CUSTOMERS,
    AMERICAN_SUPPLIERS,
    TWO_MAKERS,
    IN_1997_OR_1998,
];

pub const Q43: &[Filter] = &[
    AMERICAN_CUSTOMERS,
    Filter::Is(Attr::SupplierNation, "UNITED STATES"),
    IN_1997_OR_1998,
    Filter::Is(Attr::PartCategory, "MFGR#14"),
];
