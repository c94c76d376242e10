//! What is said of a refusal of tables, from what they kept of it.
ghost use Rattle.std.specs.Prelude.{◌≡◌, IfOk};
ghost use Rattle.cube_model.specs.Validity.{HaveShortTexts};
ghost use Rattle.command_files.specs.Batches.{batch_of};

use crate::batch_hints::refused_mode;
use crate::broken_rows::rows_hint;
use crate::files::{DimensionFiles, Reads, unread_table};
use crate::refusal::Refusal;
use crate::refused_lines::refused_line;
use crate::table_paths::table_name;
use batch_loader::Table;
use clap::ArgMatches;
use cube_model::limits::MOST_BATCH_ROWS;
use cube_model::{Axis, DimRows, Fault, Measure, MemberPlace};
use dimension_tables::{DimensionTables, RefusedLine};
use dimensions::Dims;
use ssb_eval::{Tables, UnknownKey};
use std::alloc::Global;
use std::io::Read;

/// The tables of a star whose dimensions are files of one kind.
pub type Star<F, L> = Tables<F, F, F, F, L>;

/// The refusal of tables, with what they kept of it.
pub fn refused_tables(
    alloc: Global,
    given: &ArgMatches<'_>,
    reads: &Reads,
    fault: Fault,
    hint: Result<Option<String>, Fault>,
) -> Refusal {
    if fault == Fault::Input {
        return unread_table(alloc, given, reads);
    }
    Refusal {
        fault,
        hint: hint.unwrap_or(None),
    }
}

/// The rows of the tables of the dimensions.
pub fn rows_over<F: Read + Drop>(
    alloc: Global,
    given: &ArgMatches<'_>,
    files: DimensionFiles<F>,
    reads: &Reads,
) -> Result<DimRows, Refusal>
    ensures short { IfOk result HaveShortTexts }
{
    let DimensionFiles {
        customer,
        supplier,
        part,
        date,
    } = files;
    let mut tables = DimensionTables::new(alloc, customer, supplier, part, date)?;
    match tables.rows(alloc) {
        Ok(rows) => Ok(rows),
        Err(fault) => {
            let hint = match tables.refused() {
                Some(line) => refused_hint(alloc, given, line, fault),
                None => Ok(None),
            };
            Err(refused_tables(alloc, given, reads, fault, hint))
        }
    }
}

/// The cause of a refusal of the five tables, as one line without its end. Nothing where they kept none. It fails only
/// when out of memory.
pub fn star_hint<F: Read + Drop, L: Read + Drop>(
    alloc: Global,
    given: &ArgMatches<'_>,
    tables: &Star<F, L>,
    fault: Fault,
) -> Result<Option<String>, Fault> {
    if let Some(line) = tables.refused() {
        return refused_hint(alloc, given, line, fault);
    }
    if let Some(rows) = tables.broken() {
        return broken_hint(alloc, given, rows, None, fault);
    }
    if let Some((row, said)) = refused_mode(fault) {
        return mode_hint(alloc, given, tables.fact_number(), row, said);
    }
    match key_for(fault, tables.unknown()) {
        Some(unknown) => unknown_hint(alloc, given, unknown),
        None => facts_hint(alloc, given, tables.fact_line(), fault),
    }
}

/// The key that is kept of a batch, where that is why it is refused: a line may be refused after a key was kept.
pub fn key_for(fault: Fault, unknown: Option<UnknownKey>) -> Option<UnknownKey> {
    match fault {
        Fault::UnknownCustomer { .. }
        | Fault::UnknownSupplier { .. }
        | Fault::UnknownPart { .. }
        | Fault::UnknownDate { .. } => unknown,
        _ => None,
    }
}

fn refused_hint(
    alloc: Global,
    given: &ArgMatches<'_>,
    line: RefusedLine<'_>,
    fault: Fault,
) -> Result<Option<String>, Fault> {
    let table = Table::of(line.axis);
    let path = table_name(alloc, given, table)?;
    refused_line(alloc, path.as_str(), table, line.text, fault)
}

/// The rule that dimension rows break, which come after those of a warehouse, if there is one, as one line without its
/// end.
pub fn broken_hint(
    alloc: Global,
    given: &ArgMatches<'_>,
    rows: &DimRows,
    stored: Option<&Dims>,
    fault: Fault,
) -> Result<Option<String>, Fault> {
    let path = match axis_of(fault) {
        Some(axis) => table_name(alloc, given, Table::of(axis))?,
        None => String::new(alloc),
    };
    rows_hint(alloc, path.as_str(), rows, stored, fault)
}

// The dimension whose rows a fault is of.
fn axis_of(fault: Fault) -> Option<Axis> {
    match fault {
        Fault::DuplicateKey { axis, .. }
        | Fault::HierarchyBroken { axis, .. }
        | Fault::ReservedMember {
            place: MemberPlace::InDimension { axis, .. },
        }
        | Fault::TooManyMembers {
            place: MemberPlace::InDimension { axis, .. },
        } => Some(axis),
        _ => None,
    }
}

fn unknown_hint(
    alloc: Global,
    given: &ArgMatches<'_>,
    unknown: UnknownKey,
) -> Result<Option<String>, Fault> {
    let UnknownKey { axis, key, line } = unknown;
    let path = table_name(alloc, given, Table::Lineorder)?;
    let table = table_name(alloc, given, Table::of(axis))?;
    let batch = batch_of(line);
    let said = format!(in alloc;
        "batch {batch}, line {line} of {path}: {axis} {key} is in no row of {table}"
    )?;
    Ok(Some(said))
}

// The batch of a line.
fn batch_of(line: u64) -> u64
    ensures { result ≡ batch_of line }
{
    line.saturating_sub(1) / MOST_BATCH_ROWS as u64 + 1
}

// The row for whose ship mode a batch is refused, and what is said of it. The batch is that of the line that was read
// last.
fn mode_hint(
    alloc: Global,
    given: &ArgMatches<'_>,
    last: u64,
    row: u32,
    said: &str,
) -> Result<Option<String>, Fault> {
    let batch_rows = MOST_BATCH_ROWS as u64;
    let before = last.saturating_sub(1) / batch_rows;
    let line = before
        .saturating_mul(batch_rows)
        .saturating_add(u64::from(row));
    let path = table_name(alloc, given, Table::Lineorder)?;
    Ok(Some(format!(in alloc; "{path} line {line}: {said}")?))
}

fn facts_hint(
    alloc: Global,
    given: &ArgMatches<'_>,
    line: &[u8],
    fault: Fault,
) -> Result<Option<String>, Fault> {
    let path = table_name(alloc, given, Table::Lineorder)?;
    let said = refused_line(alloc, path.as_str(), Table::Lineorder, line, fault)?;
    if said.is_some() {
        return Ok(said);
    }
    limit_hint(alloc, path.as_str(), fault)
}

/// The limit that the rows of a fact table exceed, as one line without its end, where the table has a name. Nothing
/// where the fault is none of these. It fails only when out of memory.
pub fn limit_hint(alloc: Global, path: &str, fault: Fault) -> Result<Option<String>, Fault> {
    match fault {
        Fault::SumRange { measure } => sum_limit(alloc, path, measure),
        Fault::TooManyBatches => line_limit(alloc, path),
        _ => Ok(None),
    }
}

fn sum_limit(alloc: Global, path: &str, measure: Measure) -> Result<Option<String>, Fault> {
    let said = format!(in alloc;
        "{path}: the absolute values of {measure} add up to more than 9223372036854775807"
    )?;
    Ok(Some(said))
}

fn line_limit(alloc: Global, path: &str) -> Result<Option<String>, Fault> {
    let said = format!(in alloc; "{path}: more than 268435456 lines")?;
    Ok(Some(said))
}
