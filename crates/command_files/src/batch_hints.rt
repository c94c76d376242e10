//! What is said of a batch that is refused.
ghost use Rattle.std.specs.Option.{option_map};
ghost use Rattle.std.specs.Prelude.{◌≡◌};
ghost use Rattle.command_files.specs.Batches.{refused_row};

use cube_model::limits::MOST_BATCHES;
use cube_model::{Fault, MemberPlace};
use std::alloc::{AllocError, Global};

/// A batch of the warehouse.
#[derive(Clone, Copy)]
pub struct StoredBatch {
    pub number: u32,
    pub rows: u32,
}

/// What is said of a batch of so many rows of a load that is not the stored one of its number, as one line without its
/// end. It fails only when out of memory.
pub fn repeated_hint(
    alloc: Global,
    path: &str,
    rows: u32,
    stored: StoredBatch,
) -> Result<String, Fault> {
    let given = counted(alloc, rows)?;
    let number = stored.number;
    let stored = counted(alloc, stored.rows)?;
    let said = format!(in alloc;
        "batch {number} of {path}{given} is not batch {number} of the warehouse{stored}: was it loaded with another --rows, or is --first too small?"
    )?;
    Ok(said)
}

// A number of rows in brackets, after a blank.
fn counted(alloc: Global, rows: u32) -> Result<String, AllocError> {
    match rows {
        1 => String::from_str(alloc, " (1 row)"),
        _ => format!(in alloc; " ({rows} rows)"),
    }
}

/// What is said of the number of a batch that a load begins with, where the warehouse has so many batches. Nothing
/// where the fault is none of a number. It fails only when out of memory.
pub fn number_hint(
    alloc: Global,
    fault: Fault,
    first: u32,
    batches: u32,
) -> Result<Option<String>, Fault> {
    match fault {
        Fault::Gap => gap_hint(alloc, first, batches),
        Fault::TooManyBatches => crowd_hint(alloc),
        _ => Ok(None),
    }
}

fn gap_hint(alloc: Global, first: u32, batches: u32) -> Result<Option<String>, Fault> {
    let said = format!(in alloc;
        "--first {first}: the next batch of the warehouse is {}",
        batches.saturating_add(1)
    )?;
    Ok(Some(said))
}

fn crowd_hint(alloc: Global) -> Result<Option<String>, Fault> {
    let said = format!(in alloc;
        "a warehouse has at most {MOST_BATCHES} batches; larger ones hold more rows"
    )?;
    Ok(Some(said))
}

/// The row for whose ship mode a batch is refused, and what is said of it. Nothing where that is not the fault.
pub fn refused_mode(fault: Fault) -> Option<(u32, &'static str)>
    ensures { option_map (λ found. found.0) result ≡ refused_row fault }
{
    match fault {
        Fault::ReservedMember {
            place: MemberPlace::InBatch { row },
        } => Some((
            row,
            "the ship mode ALL is reserved: it means every ship mode",
        )),
        Fault::TooManyMembers {
            place: MemberPlace::InBatch { row },
        } => Some((row, "the 65536th ship mode, and there may be 65535")),
        _ => None,
    }
}
