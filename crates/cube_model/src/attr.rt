//! The dimensions, and the attributes that they give a fact row.
ghost use Rattle.std.specs.Prelude.{◌≡◌, Some};
ghost use Rattle.cube_model.specs.Names.{axis_name, attr_name};
ghost use Rattle.cube_model.specs.Attributes.{axis_of};

use std::fmt;

/// A dimension of the star.
#[derive(Clone, Copy, PartialEq, Eq)]
pub enum Axis {
    Customer,
    Supplier,
    Part,
    Date,
}

impl Axis {
    /// The name of the dimension, as the program prints it.
    pub fn name(self) -> &'static str
        ensures { result.now ≡ axis_name self }
    {
        match self {
            Axis::Customer => "customer",
            Axis::Supplier => "supplier",
            Axis::Part => "part",
            Axis::Date => "date",
        }
    }
}

impl fmt::Display for Axis {
    fn fmt<W: fmt::Write>(&self, f: &mut fmt::Formatter<W>) -> fmt::Result {
        f.write_str(self.name())
    }
}

/// An attribute of a fact row, by one of its dimensions. The names are those of the benchmark.
#[derive(Clone, Copy, PartialEq, Eq)]
pub enum Attr {
    CustomerCity,
    CustomerNation,
    CustomerRegion,
    SupplierCity,
    SupplierNation,
    SupplierRegion,
    PartBrand1,
    PartCategory,
    PartMfgr,
    DateKey,
    DateYearmonthnum,
    DateYear,
    DateYearmonth,
    DateWeeknuminyear,
}

impl Attr {
    /// The dimension that has the attribute.
    pub fn axis(self) -> Axis
        ensures { result ≡ axis_of self }
    {
        match self {
            Attr::CustomerCity | Attr::CustomerNation | Attr::CustomerRegion => Axis::Customer,
            Attr::SupplierCity | Attr::SupplierNation | Attr::SupplierRegion => Axis::Supplier,
            Attr::PartBrand1 | Attr::PartCategory | Attr::PartMfgr => Axis::Part,
            Attr::DateKey
            | Attr::DateYearmonthnum
            | Attr::DateYear
            | Attr::DateYearmonth
            | Attr::DateWeeknuminyear => Axis::Date,
        }
    }

    /// The name of the attribute in queries and reports.
    pub fn name(self) -> &'static str
        ensures { result.now ≡ attr_name self }
    {
        match self {
            Attr::CustomerCity => "c_city",
            Attr::CustomerNation => "c_nation",
            Attr::CustomerRegion => "c_region",
            Attr::SupplierCity => "s_city",
            Attr::SupplierNation => "s_nation",
            Attr::SupplierRegion => "s_region",
            Attr::PartBrand1 => "p_brand1",
            Attr::PartCategory => "p_category",
            Attr::PartMfgr => "p_mfgr",
            Attr::DateKey => "d_datekey",
            Attr::DateYearmonthnum => "d_yearmonthnum",
            Attr::DateYear => "d_year",
            Attr::DateYearmonth => "d_yearmonth",
            Attr::DateWeeknuminyear => "d_weeknuminyear",
        }
    }
}
