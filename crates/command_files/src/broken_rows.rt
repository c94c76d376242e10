//! A dimension row that breaks a rule of its table.
use cube_model::limits::{MOST_DAYS, MOST_DIMENSION_ROWS};
use cube_model::{Attr, Axis, DimRows, Fault, MemberPlace};
use dimensions::Dims;
use std::alloc::Global;
use std::fmt;
use table_hints::Quoted;

/// The rule that dimension rows break, as one line without its end: of which line, and what is wrong there. The rows
/// are those of the file of the fault's dimension, of which the name is given, and come after those of a warehouse, if
/// there is one. Nothing where the fault is none of such rows. It fails only when out of memory.
pub fn rows_hint(
    alloc: Global,
    path: &str,
    rows: &DimRows,
    stored: Option<&Dims>,
    fault: Fault,
) -> Result<Option<String>, Fault> {
    match fault {
        Fault::DuplicateKey { axis, row } => key_hint(alloc, path, rows, axis, row),
        Fault::HierarchyBroken { axis, row } => upper_hint(alloc, path, rows, stored, axis, row),
        Fault::ReservedMember {
            place: MemberPlace::InDimension { row, .. },
        } => reserved(alloc, path, row),
        Fault::TooManyMembers {
            place: MemberPlace::InDimension { row, .. },
        } => crowded(alloc, path, row),
        Fault::TooManyRows if stored.is_some() => {
            row_limits(alloc, "with the rows of the warehouse, ")
        }
        Fault::TooManyRows => row_limits(alloc, ""),
        _ => Ok(None),
    }
}

// How many rows the dimension tables have at most, after some words.
fn row_limits(alloc: Global, words: &str) -> Result<Option<String>, Fault> {
    let said = format!(in alloc;
        "{words}a customer, supplier or part table has at most {MOST_DIMENSION_ROWS} rows, and a date table {MOST_DAYS}"
    )?;
    Ok(Some(said))
}

fn reserved(alloc: Global, path: &str, row: u32) -> Result<Option<String>, Fault> {
    let said = format!(in alloc;
        "{path} line {row}: the text ALL is reserved: it means every member"
    )?;
    Ok(Some(said))
}

fn crowded(alloc: Global, path: &str, row: u32) -> Result<Option<String>, Fault> {
    let said = format!(in alloc;
        "{path} line {row}: the 65536th member of a column, and there may be 65535"
    )?;
    Ok(Some(said))
}

// Where the key of a row occurs before: in an earlier row, or else in the warehouse.
fn key_hint(
    alloc: Global,
    path: &str,
    rows: &DimRows,
    axis: Axis,
    row: u32,
) -> Result<Option<String>, Fault> {
    let place = (row as usize).saturating_sub(1);
    let Some(key) = key_at(rows, axis, place) else {
        return Ok(None);
    };
    let first = (0..place).find(|other| key_at(rows, axis, *other) == Some(key));
    let said = match first {
        Some(first) => format!(in alloc;
            "{path} line {row}: duplicate {axis} key {key}, first in line {}",
            first.saturating_add(1)
        )?,
        None => format!(in alloc;
            "{path} line {row}: the warehouse has a {axis} row with the key {key} already"
        )?,
    };
    Ok(Some(said))
}

// The key of a row of a dimension by its place from 0.
fn key_at(rows: &DimRows, axis: Axis, place: usize) -> Option<u32> {
    match axis {
        Axis::Customer => Some(rows.customers.as_slice().get(place)?.key),
        Axis::Supplier => Some(rows.suppliers.as_slice().get(place)?.key),
        Axis::Part => Some(rows.parts.as_slice().get(place)?.key),
        Axis::Date => Some(rows.dates.as_slice().get(place)?.key),
    }
}

// The lower and the upper attribute of each two levels of a dimension of which one determines the other.
fn steps(axis: Axis) -> [(Attr, Attr); 2] {
    match axis {
        Axis::Customer => [
            (Attr::CustomerCity, Attr::CustomerNation),
            (Attr::CustomerNation, Attr::CustomerRegion),
        ],
        Axis::Supplier => [
            (Attr::SupplierCity, Attr::SupplierNation),
            (Attr::SupplierNation, Attr::SupplierRegion),
        ],
        Axis::Part => [
            (Attr::PartBrand1, Attr::PartCategory),
            (Attr::PartCategory, Attr::PartMfgr),
        ],
        Axis::Date => [
            (Attr::DateYearmonthnum, Attr::DateYear),
            (Attr::DateYearmonthnum, Attr::DateYearmonth),
        ],
    }
}

// Which member of a row has another upper member before it, and both: in an earlier row, or else in the warehouse.
fn upper_hint(
    alloc: Global,
    path: &str,
    rows: &DimRows,
    stored: Option<&Dims>,
    axis: Axis,
    row: u32,
) -> Result<Option<String>, Fault> {
    let place = (row as usize).saturating_sub(1);
    for step in steps(axis) {
        if let Some(link) = link_at(rows, step, place) {
            for earlier in 0..place {
                if let Some(other) = other_upper(rows, step, earlier, &link) {
                    return broken(alloc, path, row, &link, Earlier::Row(earlier), other);
                }
            }
        }
    }
    match stored {
        Some(dims) => stored_hint(alloc, path, rows, dims, axis, row),
        None => Ok(None),
    }
}

// Which member of a row has another upper member in the warehouse, and both.
fn stored_hint(
    alloc: Global,
    path: &str,
    rows: &DimRows,
    dims: &Dims,
    axis: Axis,
    row: u32,
) -> Result<Option<String>, Fault> {
    let place = (row as usize).saturating_sub(1);
    for step in steps(axis) {
        if let Some(link) = link_at(rows, step, place) {
            if let Some(other) = stored_upper(dims, axis, step, &link) {
                return broken(alloc, path, row, &link, Earlier::Warehouse, other);
            }
        }
    }
    Ok(None)
}

// A member and its upper member.
#[derive(Clone, Copy)]
struct Link<'a> {
    lower: Member<'a>,
    upper: Member<'a>,
}

// The members of a row of the two levels of a step.
fn link_at<'a>(rows: &'a DimRows, step: (Attr, Attr), place: usize) -> Option<Link<'a>> {
    Some(Link {
        lower: member_at(rows, step.0, place)?,
        upper: member_at(rows, step.1, place)?,
    })
}

// The upper member in another row of a lower member, where that is another one.
fn other_upper<'a>(
    rows: &'a DimRows,
    step: (Attr, Attr),
    place: usize,
    link: &Link<'_>,
) -> Option<&'a [u8]> {
    let other = link_at(rows, step, place)?;
    let differs = *other.lower.text == *link.lower.text && *other.upper.text != *link.upper.text;
    differs.then_some(other.upper.text)
}

// The upper member in the warehouse of a lower member, where that is another one.
fn stored_upper<'d>(
    dims: &'d Dims,
    axis: Axis,
    step: (Attr, Attr),
    link: &Link<'_>,
) -> Option<&'d [u8]> {
    for key in dims.keys(axis) {
        let own = dims.attribute(axis, *key, step.0)?;
        let other = dims.attribute(axis, *key, step.1)?;
        if *own == *link.lower.text && *other != *link.upper.text {
            return Some(other);
        }
    }
    None
}

// The member of a row at the level of an attribute, if the row is there and its table has the level.
fn member_at(rows: &DimRows, attr: Attr, place: usize) -> Option<Member<'_>> {
    let text = match attr {
        Attr::CustomerCity => &rows.customers.as_slice().get(place)?.city,
        Attr::CustomerNation => &rows.customers.as_slice().get(place)?.nation,
        Attr::CustomerRegion => &rows.customers.as_slice().get(place)?.region,
        Attr::SupplierCity => &rows.suppliers.as_slice().get(place)?.city,
        Attr::SupplierNation => &rows.suppliers.as_slice().get(place)?.nation,
        Attr::SupplierRegion => &rows.suppliers.as_slice().get(place)?.region,
        Attr::PartBrand1 => &rows.parts.as_slice().get(place)?.brand1,
        Attr::PartCategory => &rows.parts.as_slice().get(place)?.category,
        Attr::PartMfgr => &rows.parts.as_slice().get(place)?.mfgr,
        Attr::DateYearmonthnum => &rows.dates.as_slice().get(place)?.yearmonthnum,
        Attr::DateYear => &rows.dates.as_slice().get(place)?.year,
        Attr::DateYearmonth => &rows.dates.as_slice().get(place)?.yearmonth,
        Attr::DateKey | Attr::DateWeeknuminyear => return None,
    };
    Some(Member {
        level: level_of(attr),
        text: text.as_slice(),
    })
}

// The column of an attribute in its table.
fn level_of(attr: Attr) -> &'static str {
    let name = attr.name();
    match name.split_once('_') {
        Some((_, level)) => level,
        None => name,
    }
}

fn broken(
    alloc: Global,
    path: &str,
    row: u32,
    link: &Link<'_>,
    place: Earlier,
    other: &[u8],
) -> Result<Option<String>, Fault> {
    let Link { lower, upper } = *link;
    let other = Quoted(other);
    let said = format!(in alloc; "{path} line {row}: {lower} has {upper}, and {other} in {place}")?;
    Ok(Some(said))
}

// Where a lower member has another upper member: in the row at a place from 0, or in the warehouse.
#[derive(Clone, Copy)]
enum Earlier {
    Row(usize),
    Warehouse,
}

impl fmt::Display for Earlier {
    fn fmt<W: fmt::Write>(&self, f: &mut fmt::Formatter<W>) -> fmt::Result {
        match self {
            Earlier::Row(place) => write!(f, "line {}", place.saturating_add(1)),
            Earlier::Warehouse => write!(f, "the warehouse"),
        }
    }
}

// A member as it is named in a line, such as `city "A"`.
#[derive(Clone, Copy)]
struct Member<'a> {
    level: &'static str,
    text: &'a [u8],
}

impl fmt::Display for Member<'_> {
    fn fmt<W: fmt::Write>(&self, f: &mut fmt::Formatter<W>) -> fmt::Result {
        write!(f, "{} {}", self.level, Quoted(self.text))
    }
}
