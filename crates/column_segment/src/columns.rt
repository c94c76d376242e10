//! The columns of a batch.
ghost use Rattle.std.specs.Prelude.{◌≡◌, ◌+◌, ◌≤◌};
ghost use Rattle.column_segment.specs.Columns.{width_of};

use cube_model::LineOrder;

/// A column of numbers.
#[derive(Clone, Copy, PartialEq, Eq)]
pub enum FactColumn {
    /// The number of the order.
    OrderKey,
    /// The number of the line in its order.
    LineNumber,
    /// The key of the customer.
    CustKey,
    /// The key of the part.
    PartKey,
    /// The key of the supplier.
    SuppKey,
    /// The key of the day on which it was ordered.
    OrderDate,
    /// How many pieces.
    Quantity,
    /// The price of the line.
    ExtendedPrice,
    /// The price of the order.
    OrdTotalPrice,
    /// The discount, in percent.
    Discount,
    /// The price of the line less its discount.
    Revenue,
    /// What the pieces cost the seller.
    SupplyCost,
    /// The tax, in percent.
    Tax,
}

impl FactColumn {
    ghost use Rattle.column_segment.specs.Columns.{FitsColumn, fact_value};
    ghost use Rattle.column_segment.specs.Decoded.{fact_place};

    // Which number of a row is in the column.
    #[inline(always)]
    fn number_of(self, row: &LineOrder) -> u64
        ensures value { result ≡ fact_value self row.now }
        ensures fits { FitsColumn self row.now }
    {
        match self {
            FactColumn::OrderKey => row.orderkey.get(),
            FactColumn::LineNumber => u64::from(row.linenumber),
            FactColumn::CustKey => u64::from(row.custkey),
            FactColumn::PartKey => u64::from(row.partkey),
            FactColumn::SuppKey => u64::from(row.suppkey),
            FactColumn::OrderDate => u64::from(row.orderdate),
            FactColumn::Quantity => u64::from(row.quantity),
            FactColumn::ExtendedPrice => row.extendedprice.get(),
            FactColumn::OrdTotalPrice => row.ordtotalprice.get(),
            FactColumn::Discount => u64::from(row.discount),
            FactColumn::Revenue => row.revenue.get(),
            FactColumn::SupplyCost => row.supplycost.get(),
            FactColumn::Tax => u64::from(row.tax),
        }
    }

    /// How many bytes each number of it has: eight, four or one.
    pub fn width(self) -> usize
        ensures { result ≡ width_of self }
    {
        match self {
            FactColumn::OrderKey
            | FactColumn::ExtendedPrice
            | FactColumn::OrdTotalPrice
            | FactColumn::Revenue
            | FactColumn::SupplyCost => 8,
            FactColumn::LineNumber
            | FactColumn::CustKey
            | FactColumn::PartKey
            | FactColumn::SuppKey
            | FactColumn::OrderDate => 4,
            FactColumn::Quantity | FactColumn::Discount | FactColumn::Tax => 1,
        }
    }

    // How many bytes of a row are in the columns before it.
    pub(crate) fn place(self) -> usize
        ensures value { result ≡ fact_place self }
        ensures within { result + width_of self ≤ 63 }
    {
        match self {
            FactColumn::OrderKey => 0,
            FactColumn::LineNumber => 8,
            FactColumn::CustKey => 12,
            FactColumn::PartKey => 16,
            FactColumn::SuppKey => 20,
            FactColumn::OrderDate => 24,
            FactColumn::Quantity => 28,
            FactColumn::ExtendedPrice => 29,
            FactColumn::OrdTotalPrice => 37,
            FactColumn::Discount => 45,
            FactColumn::Revenue => 46,
            FactColumn::SupplyCost => 54,
            FactColumn::Tax => 62,
        }
    }
}

/// A column of numbers of so many bytes each.
#[derive(Clone, Copy)]
pub struct Column<const WIDTH: usize> {
    /// Which column.
    pub name: FactColumn,

    /// Its numbers have that width.
    ghost wide: { width_of name ≡ WIDTH },
}

impl<const WIDTH: usize> Column<WIDTH> {
    ghost use Rattle.wire.specs.Spelling.{spelling};
    ghost use Rattle.column_segment.specs.Columns.{FitsColumn, fact_value};

    // The bytes of what a row has in it, the lowest first.
    #[inline(always)]
    pub(crate) fn bytes_of(self, row: &LineOrder) -> [u8; WIDTH]
        ensures value { result ≡ spelling WIDTH (fact_value self.entry.name row.now) }
        ensures fits { FitsColumn self.entry.name row.now }
    {
        let mut bytes = [0; WIDTH];
        bytes.copy_from_slice(&self.name.number_of(row).to_le_bytes()[..WIDTH]);
        bytes
    }
}

impl Column<8> {
    /// [`FactColumn::OrderKey`], of eight bytes.
    pub const ORDER_KEY: Column<8> = Column {
        name: FactColumn::OrderKey,
    };

    /// [`FactColumn::ExtendedPrice`], of eight bytes.
    pub const EXTENDED_PRICE: Column<8> = Column {
        name: FactColumn::ExtendedPrice,
    };

    /// [`FactColumn::OrdTotalPrice`], of eight bytes.
    pub const ORD_TOTAL_PRICE: Column<8> = Column {
        name: FactColumn::OrdTotalPrice,
    };

    /// [`FactColumn::Revenue`], of eight bytes.
    pub const REVENUE: Column<8> = Column {
        name: FactColumn::Revenue,
    };

    /// [`FactColumn::SupplyCost`], of eight bytes.
    pub const SUPPLY_COST: Column<8> = Column {
        name: FactColumn::SupplyCost,
    };
}

impl Column<4> {
    /// [`FactColumn::LineNumber`], of four bytes.
    pub const LINE_NUMBER: Column<4> = Column {
        name: FactColumn::LineNumber,
    };

    /// [`FactColumn::CustKey`], of four bytes.
    pub const CUST_KEY: Column<4> = Column {
        name: FactColumn::CustKey,
    };

    /// [`FactColumn::PartKey`], of four bytes.
    pub const PART_KEY: Column<4> = Column {
        name: FactColumn::PartKey,
    };

    /// [`FactColumn::SuppKey`], of four bytes.
    pub const SUPP_KEY: Column<4> = Column {
        name: FactColumn::SuppKey,
    };

    /// [`FactColumn::OrderDate`], of four bytes.
    pub const ORDER_DATE: Column<4> = Column {
        name: FactColumn::OrderDate,
    };
}

impl Column<1> {
    /// [`FactColumn::Quantity`], of one byte.
    pub const QUANTITY: Column<1> = Column {
        name: FactColumn::Quantity,
    };

    /// [`FactColumn::Discount`], of one byte.
    pub const DISCOUNT: Column<1> = Column {
        name: FactColumn::Discount,
    };

    /// [`FactColumn::Tax`], of one byte.
    pub const TAX: Column<1> = Column {
        name: FactColumn::Tax,
    };
}

/// A column of texts: a dictionary, and two bytes each.
#[derive(Clone, Copy, PartialEq, Eq)]
pub enum TextColumn {
    /// How urgent the order is.
    OrderPriority,
    /// How urgent its delivery is.
    ShipPriority,
    /// The day on which delivery was promised.
    CommitDate,
    /// How the line is delivered.
    ShipMode,
}

impl TextColumn {
    ghost use Rattle.column_segment.specs.Columns.{text_of};

    // What a row has in the column.
    pub(crate) fn of<'a>(self, row: &'a LineOrder) -> &'a [u8]
        ensures { result.now ≡ text_of self row.now }
    {
        match self {
            TextColumn::OrderPriority => row.orderpriority.as_slice(),
            TextColumn::ShipPriority => row.shippriority.as_slice(),
            TextColumn::CommitDate => row.commitdate.as_slice(),
            TextColumn::ShipMode => row.shipmode.as_slice(),
        }
    }
}
