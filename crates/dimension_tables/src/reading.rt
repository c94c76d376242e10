//! The dimensions from the texts of their tables.
ghost use Rattle.std.specs.Prelude.{◌≡◌, Some};
ghost use Rattle.dimension_tables.specs.Texts.{GivesUnlessFailed, TableTexts, dimensions_of};

use crate::tables::DimensionTables;
use cube_model::Fault;
use dimensions::Dims;
use std::alloc::Global;
use std::io::Read;

/// Reads the four tables, and then checks their rows.
pub fn read_dimensions<C: Read + Drop, S: Read + Drop, P: Read + Drop, D: Read + Drop>(
    alloc: Global,
    customer: C,
    supplier: S,
    part: P,
    date: D,
) -> Result<Dims, Fault>
    ensures { (texts : TableTexts) → C.remaining customer ≡ Some texts.customer
        → S.remaining supplier ≡ Some texts.supplier
        → P.remaining part ≡ Some texts.part → D.remaining date ≡ Some texts.date
        → GivesUnlessFailed (dimensions_of texts) result }
{
    let mut tables = DimensionTables::new(alloc, customer, supplier, part, date)?;
    let rows = tables.rows(alloc)?;
    Dims::build(alloc, &rows)
}
