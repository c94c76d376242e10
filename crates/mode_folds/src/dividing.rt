//! Fact rows by their ship modes.
ghost use Rattle.std.specs.Prelude.{◌≡◌, ℕ, List, [], ◌∷◌, ◌++◌, length, map, IfOk, OnOk, IsOkUnless};
ghost use Rattle.std.proofs.Math.ListN.{replicate};
ghost use Rattle.cube_model.specs.declared.rows.LineOrder.{LineOrder};
ghost use Rattle.dictionary.specs.Dictionary.{EachOnce};
ghost use Rattle.mode_folds.specs.Divided.{AreDivided};
ghost use Rattle.mode_queries.specs.Joining.{passing};

use cube_model::{Fault, LineOrder};
use dictionary::Dictionary;
use mode_queries::{ModeCond, passes};
use std::alloc::{AllocError, Global};

/// The fact rows whose ship modes pass conditions, in their order.
pub(crate) fn passing(conditions: &[ModeCond], rows: Vec<LineOrder>) -> Vec<LineOrder>
    ensures { result.items ≡ passing conditions.now rows.items }
{
    let mut rows = rows;
    rows.retain(|row| passes(conditions, row.shipmode.as_slice()));
    rows
}

/// The fact rows of each ship mode, in their order, by the codes of the ship modes. Those that are new get the next
/// codes. It can only fail when out of memory.
pub(crate) fn divided(
    alloc: Global,
    modes: &mut Dictionary,
    rows: Vec<LineOrder>,
) -> Result<Vec<Vec<LineOrder>>, Fault>
    ensures ok { IfOk result (λ parts. EachOnce modes.old.texts
        → AreDivided modes.old.texts modes.new.texts rows.items parts.items) }
    ensures memory { IsOkUnless result Fault.Memory }
{
    let mut parts = empty_parts(alloc, modes.len())?;
    for row in rows {
        put_row(alloc, modes, &mut parts, row)?;
    }
    Ok(parts)
}

/// So many lists with nothing.
pub(crate) fn empty_parts<T: Drop>(alloc: Global, count: usize) -> Result<Vec<Vec<T>>, AllocError>
    ensures { IfOk result (λ parts. map (λ part. part.items) parts.items ≡ replicate count []) }
{
    let mut parts = Vec::with_capacity(alloc, count)?;
    for _ in 0..count {
        parts.push(Vec::new(alloc))?;
    }
    Ok(parts)
}

// Puts a row after those of its ship mode, which were divided before.
fn put_row(
    alloc: Global,
    modes: &mut Dictionary,
    parts: &mut Vec<Vec<LineOrder>>,
    row: LineOrder,
) -> Result<(), Fault>
    requires { length parts.old.items ≡ length modes.old.texts }
    ensures ok { OnOk result ((known : List (List ℕ)) (rows : List LineOrder)
        → AreDivided known modes.old.texts rows parts.old.items
        → AreDivided known modes.new.texts (rows ++ row ∷ []) parts.new.items) }
    ensures counted { OnOk result (length parts.new.items ≡ length modes.new.texts) }
    ensures memory { IsOkUnless result Fault.Memory }
{
    let Some(code) = modes.add(alloc, row.shipmode.as_slice())? else {
        return Err(Fault::Memory); // more ship modes than numbers of 32 bits
    };
    if code as usize == parts.len() {
        parts.push(Vec::new(alloc))?;
    }
    parts[code as usize].push(row)?;
    Ok(())
}
