//! What a query reads, and how many groups it has at most.
use crate::needs::CELL_BYTES;
use column_segment::{FactColumn, TextColumn};
use cube_model::{Fault, Kind};
use cube_query::Fold;
use dimensions::Dims;
use mode_queries::QueryRef;
use std::alloc::{AllocError, Global};
use warehouse::{AccessPath, Priced};

/// The bytes of the ship mode of a cell, where the view groups by it.
const MODE_BYTES: u64 = 2;

/// A column of stored fact rows.
#[derive(Clone, Copy)]
enum Column {
    Figures(FactColumn),
    /// The codes of texts.
    Texts(TextColumn),
}

/// All columns, in the order of the file.
static WHOLE_ROW: [Column; 17] = [
    Column::Figures(FactColumn::OrderKey),
    Column::Figures(FactColumn::LineNumber),
    Column::Figures(FactColumn::CustKey),
    Column::Figures(FactColumn::PartKey),
    Column::Figures(FactColumn::SuppKey),
    Column::Figures(FactColumn::OrderDate),
    Column::Texts(TextColumn::OrderPriority),
    Column::Texts(TextColumn::ShipPriority),
    Column::Figures(FactColumn::Quantity),
    Column::Figures(FactColumn::ExtendedPrice),
    Column::Figures(FactColumn::OrdTotalPrice),
    Column::Figures(FactColumn::Discount),
    Column::Figures(FactColumn::Revenue),
    Column::Figures(FactColumn::SupplyCost),
    Column::Figures(FactColumn::Tax),
    Column::Texts(TextColumn::CommitDate),
    Column::Texts(TextColumn::ShipMode),
];

/// What a query reads of each fact row, and how many groups it has at most.
pub struct Reads {
    columns: Vec<Column>,
    /// How many groups there are for each fact row at most.
    sets: u64,
    /// How many groups the members of the columns make.
    groups: u64,
}

// Written out, so that a proof has one call to follow where one is let go.
impl Drop for Reads {
    fn drop(self) {
        let Reads {
            columns: _,
            sets: _,
            groups: _,
        } = self;
    }
}

impl Reads {
    /// What a proper query reads of a warehouse, which has so many ship modes, where they are counted.
    pub fn of(
        alloc: Global,
        dims: &Dims,
        ship_modes: Option<u32>,
        asked: QueryRef<'_>,
    ) -> Result<Reads, Fault> {
        let columns = columns_read(alloc, dims, asked)?;
        let members = members(alloc, dims, ship_modes, asked)?;
        let kind = asked.query().kind;
        Ok(Reads {
            columns,
            sets: grouping_sets(kind, members.len()),
            groups: groups_of(kind, members.as_slice()),
        })
    }

    /// How many bytes a plan reads at most, where it reads so many fact rows: those of the columns of these, and of its
    /// cells.
    pub fn bytes(&self, priced: &Priced, rows: u64) -> u64 {
        let row_bytes = row_bytes(self.columns.as_slice());
        let cells = priced.cost.saturating_sub(rows);
        rows.saturating_mul(row_bytes)
            .saturating_add(cells.saturating_mul(cell_bytes(priced.plan)))
    }

    /// How many groups there are at most, where there are so many fact rows.
    pub fn groups(&self, rows: u64) -> u64 {
        self.groups.min(rows.saturating_mul(self.sets))
    }

    /// The names of the columns, each after a blank.
    pub fn column_names(&self, alloc: Global) -> Result<String, AllocError> {
        let mut names = String::new(alloc);
        for column in self.columns.as_slice() {
            names.push_str(" ")?;
            names.push_str(name_of(*column))?;
        }
        Ok(names)
    }
}

// The columns that are read of fact rows: those that a query asks for, or all where it looks at ship modes, since then
// whole rows are read.
fn columns_read(alloc: Global, dims: &Dims, asked: QueryRef<'_>) -> Result<Vec<Column>, Fault> {
    let mut columns = Vec::new(alloc);
    if looks_at_modes(asked) {
        columns.extend_from_slice(&WHOLE_ROW)?;
        return Ok(columns);
    }
    let fold = Fold::new(alloc, dims, &asked.query().check()?)?;
    for column in fold.asked_columns()?.as_slice() {
        columns.push(Column::Figures(*column))?;
    }
    Ok(columns)
}

// Whether a column of a query is the ship mode, or a condition is on it.
fn looks_at_modes(asked: QueryRef<'_>) -> bool {
    asked.place().is_some() || !asked.conditions().is_empty()
}

// How many members each column of a query has. Ship modes that are not counted are as many as there may be.
fn members(
    alloc: Global,
    dims: &Dims,
    ship_modes: Option<u32>,
    asked: QueryRef<'_>,
) -> Result<Vec<u64>, AllocError> {
    let mut members = Vec::new(alloc);
    for attr in asked.query().columns.as_slice() {
        members.push(dims.members(*attr) as u64)?;
    }
    if let Some(place) = asked.place() {
        let modes = ship_modes.map_or(u64::MAX, |modes| u64::from(modes));
        let place = place.min(members.len());
        members.insert(place, modes)?;
    }
    Ok(members)
}

// How many bytes the cells of a plan have each.
fn cell_bytes(plan: AccessPath) -> u64 {
    match plan {
        AccessPath::Cells { view, .. } if view.ship_mode => CELL_BYTES + MODE_BYTES,
        AccessPath::Cells { .. } | AccessPath::Scan => CELL_BYTES,
    }
}

/// After how many batches a plan reads fact rows.
pub fn mark_of(plan: AccessPath) -> u32 {
    match plan {
        AccessPath::Scan => 0,
        AccessPath::Cells { mark, .. } => mark,
    }
}

// How many grouping sets a query of so many columns has.
fn grouping_sets(kind: Kind, columns: usize) -> u64 {
    match kind {
        Kind::Plain => 1,
        Kind::Rollup => (columns as u64).saturating_add(1),
        Kind::Cube => 2u64.saturating_pow(u32::try_from(columns).unwrap_or(u32::MAX)),
    }
}

// How many keys columns make that have so many members each.
fn groups_of(kind: Kind, columns: &[u64]) -> u64 {
    let mut keys = 1u64;
    let mut beginnings = 1u64;
    for members in columns {
        keys = keys.saturating_mul(match kind {
            Kind::Plain | Kind::Rollup => *members,
            Kind::Cube => members.saturating_add(1),
        });
        beginnings = beginnings.saturating_add(keys);
    }
    match kind {
        Kind::Plain | Kind::Cube => keys,
        Kind::Rollup => beginnings,
    }
}

// How many bytes of a fact row are in columns.
fn row_bytes(columns: &[Column]) -> u64 {
    let mut bytes = 0u64;
    for column in columns {
        bytes = bytes.saturating_add(width(*column));
    }
    bytes
}

// How many bytes of a fact row are in a column.
fn width(column: Column) -> u64 {
    match column {
        Column::Figures(column) => column.width() as u64,
        Column::Texts(_) => 2,
    }
}

// The name of a column in the fact table.
fn name_of(column: Column) -> &'static str {
    match column {
        Column::Figures(column) => figures_name(column),
        Column::Texts(TextColumn::OrderPriority) => "orderpriority",
        Column::Texts(TextColumn::ShipPriority) => "shippriority",
        Column::Texts(TextColumn::CommitDate) => "commitdate",
        Column::Texts(TextColumn::ShipMode) => "shipmode",
    }
}

// The name of a column of numbers.
fn figures_name(column: FactColumn) -> &'static str {
    match column {
        FactColumn::OrderKey => "orderkey",
        FactColumn::ExtendedPrice => "extendedprice",
        FactColumn::OrdTotalPrice => "ordtotalprice",
        FactColumn::Revenue => "revenue",
        FactColumn::SupplyCost => "supplycost",
        FactColumn::LineNumber => "linenumber",
        FactColumn::CustKey => "custkey",
        FactColumn::PartKey => "partkey",
        FactColumn::SuppKey => "suppkey",
        FactColumn::OrderDate => "orderdate",
        FactColumn::Quantity => "quantity",
        FactColumn::Discount => "discount",
        FactColumn::Tax => "tax",
    }
}
