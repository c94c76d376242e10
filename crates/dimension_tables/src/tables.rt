//! The tables of the dimensions while they are read. After a refusal they have the line that is refused.
ghost use Rattle.std.specs.Prelude.{◌≡◌, Some, IfNone, IfOk, IfSome, IsOkUnless};
ghost use Rattle.cube_model.specs.Validity.{HaveShortTexts};
ghost use Rattle.dimension_tables.specs.Tables.{AreFresh, AreUnread, IsRefusedFor, KeepLines};
ghost use Rattle.dimension_tables.specs.Texts.{GivesUnlessFailed, TableTexts, tables_of};

use batch_loader::{Lines, read_customers, read_dates, read_parts, read_suppliers};
use cube_model::{Axis, DimRows, Fault};
use dimensions::have_short_texts;
use std::alloc::Global;
use std::io::Read;
use std::marker::Model;

/// A line of a dimension table that is refused.
#[derive(Clone, Copy, PartialEq, Eq)]
pub struct RefusedLine<'a> {
    /// The dimension of its table.
    pub axis: Axis,
    /// Its bytes. Where it is too long or a read failed they are those of no line.
    pub text: &'a [u8],
}

/// The four tables of the dimensions, line by line.
pub struct DimensionTables<C: Read + Drop, S: Read + Drop, P: Read + Drop, D: Read + Drop> {
    customer: Lines<C>,
    supplier: Lines<S>,
    part: Lines<P>,
    date: Lines<D>,
}

// Written out, so that a proof has one call to follow where one is let go.
impl<C: Read + Drop, S: Read + Drop, P: Read + Drop, D: Read + Drop> Drop
    for DimensionTables<C, S, P, D> {
    fn drop(self) {
        let DimensionTables {
            customer: _,
            supplier: _,
            part: _,
            date: _,
        } = self;
    }
}

impl<C: Read + Drop, S: Read + Drop, P: Read + Drop, D: Read + Drop> Model
    for DimensionTables<C, S, P, D> {
    ghost use Rattle.dimension_tables.specs.Tables.{DimensionLines};

    ghost Value = { DimensionLines };

    ghost view = { λ tables. record {
      customer = tables.customer;
      supplier = tables.supplier;
      part = tables.part;
      date = tables.date;
    } };
}

impl<C: Read + Drop, S: Read + Drop, P: Read + Drop, D: Read + Drop> DimensionTables<C, S, P, D> {
    /// The tables that four readers give. It can only fail when out of memory.
    pub fn new(alloc: Global, customer: C, supplier: S, part: P, date: D) -> Result<Self, Fault>
        ensures unread { IfOk result (λ tables. (texts : TableTexts) → C.remaining customer ≡ Some texts.customer
            → S.remaining supplier ≡ Some texts.supplier
            → P.remaining part ≡ Some texts.part → D.remaining date ≡ Some texts.date → AreUnread tables texts) }
        ensures fresh { IfOk result AreFresh }
        ensures err { IsOkUnless result Fault.Memory }
    {
        Ok(DimensionTables {
            customer: Lines::new(alloc, customer)?,
            supplier: Lines::new(alloc, supplier)?,
            part: Lines::new(alloc, part)?,
            date: Lines::new(alloc, date)?,
        })
    }

    /// The rows of the four tables, whether they keep the rules of dimensions or not. The tables are read in this
    /// order, each to its end. That a text is too long is never found here: its table refuses it.
    pub fn rows(&mut self, alloc: Global) -> Result<DimRows, Fault>
        ensures tables { (texts : TableTexts) → AreUnread self.old texts → GivesUnlessFailed (tables_of texts) result }
        ensures short { IfOk result HaveShortTexts }
        ensures lines { AreFresh self.old → KeepLines self.new }
    {
        let rows = self.all_rows(alloc)?;
        if !have_short_texts(&rows) {
            return Err(Fault::Input);
        }
        Ok(rows)
    }

    // The same of texts of any length.
    fn all_rows(&mut self, alloc: Global) -> Result<DimRows, Fault>
        ensures tables { (texts : TableTexts) → AreUnread self.old texts → GivesUnlessFailed (tables_of texts) result }
        ensures lines { AreFresh self.old → KeepLines self.new }
    {
        let customers = read_customers(alloc, &mut self.customer)?;
        let suppliers = read_suppliers(alloc, &mut self.supplier)?;
        let parts = read_parts(alloc, &mut self.part)?;
        let dates = read_dates(alloc, &mut self.date)?;
        Ok(DimRows {
            customers,
            suppliers,
            parts,
            dates,
        })
    }

    /// The line for which a table is refused, of the first table that is.
    pub fn refused(&self) -> Option<RefusedLine<'_>>
        ensures some { IfSome result (λ line. IsRefusedFor self.now line.axis line.text.now) }
        ensures none { IfNone result (AreFresh self.now) }
    {
        if self.customer.fault().is_some() {
            return Some(refused_line(Axis::Customer, &self.customer));
        }
        if self.supplier.fault().is_some() {
            return Some(refused_line(Axis::Supplier, &self.supplier));
        }
        if self.part.fault().is_some() {
            return Some(refused_line(Axis::Part, &self.part));
        }
        if self.date.fault().is_some() {
            return Some(refused_line(Axis::Date, &self.date));
        }
        None
    }
}

fn refused_line<R: Read>(axis: Axis, lines: &Lines<R>) -> RefusedLine<'_>
    ensures { (result.axis ≡ axis) × (result.text.now ≡ lines.now.line) }
{
    RefusedLine {
        axis,
        text: lines.line(),
    }
}
