//! Spelling cells.
ghost use Rattle.std.specs.Prelude.{◌≡◌, ◌+◌, ◌++◌, OnOk, IsOkUnless};
ghost use Rattle.std.specs.List.{flat_map};
ghost use Rattle.cube_model.specs.declared.fault.Fault.{Fault};
ghost use Rattle.cuboid_cells.specs.Spelled.{cell_bytes, cell_of, run_header, key_codes, mode_bytes, mode_of, name_of};
ghost use Rattle.cuboid_cells.specs.Spelled.{summaries_of, summary_of};

use crate::cell::Cell;
use crate::key::Key;
use crate::span::Span;
use crate::summary::{Summaries, Summary};
use cube_model::Fault;
use wire::{push_bytes, push_i64, push_u16, push_u32, push_u64};

// The first bytes of a run.
pub(crate) fn name(ship_modes: bool) -> &'static [u8]
    ensures { result.now ≡ name_of ship_modes }
{
    match ship_modes {
        false => b"CEL1",
        true => b"CEL2",
    }
}

// How many bytes a cell has.
pub(crate) fn bytes_of_cell(ship_modes: bool) -> usize
    ensures { result ≡ cell_bytes ship_modes }
{
    match ship_modes {
        false => 160,
        true => 162,
    }
}

// How many of them are those of its key.
pub(crate) fn bytes_of_key(ship_modes: bool) -> usize
    ensures { result ≡ 8 + mode_bytes ship_modes }
{
    match ship_modes {
        false => 8,
        true => 10,
    }
}

// Adds what is before the cells.
pub(crate) fn push_header(
    out: &mut Vec<u8>,
    ship_modes: bool,
    view: u32,
    span: Span,
    cells: u32,
) -> Result<(), Fault>
    ensures ok { OnOk result
        (out.new.items ≡ out.old.items ++ run_header (name_of ship_modes) view span.from span.to cells) }
    ensures memory { IsOkUnless result Fault.Memory }
{
    push_bytes(out, name(ship_modes))?;
    push_u32(out, view)?;
    push_u32(out, span.from)?;
    push_u32(out, span.to)?;
    push_u32(out, cells)
}

// Adds cells.
pub(crate) fn push_cells(out: &mut Vec<u8>, ship_modes: bool, cells: &[Cell]) -> Result<(), Fault>
    ensures ok { OnOk result (out.new.items ≡ out.old.items ++ flat_map (cell_of ship_modes) cells.now) }
    ensures memory { IsOkUnless result Fault.Memory }
{
    for cell in cells {
        push_cell(out, ship_modes, cell)?;
    }
    Ok(())
}

fn push_cell(out: &mut Vec<u8>, ship_modes: bool, cell: &Cell) -> Result<(), Fault>
    ensures ok { OnOk result (out.new.items ≡ out.old.items ++ cell_of ship_modes cell.now) }
    ensures memory { IsOkUnless result Fault.Memory }
{
    push_key(out, ship_modes, cell.key)?;
    push_u64(out, cell.count)?;
    push_summaries(out, &cell.measures)
}

fn push_key(out: &mut Vec<u8>, ship_modes: bool, key: Key) -> Result<(), Fault>
    ensures ok { OnOk result (out.new.items ≡ out.old.items ++ key_codes ship_modes key) }
    ensures memory { IsOkUnless result Fault.Memory }
{
    push_u16(out, key.customer)?;
    push_u16(out, key.supplier)?;
    push_u16(out, key.part)?;
    push_u16(out, key.date)?;
    push_mode(out, ship_modes, key.ship_mode)
}

// Adds a fifth code, if there is one.
fn push_mode(out: &mut Vec<u8>, ship_modes: bool, code: u16) -> Result<(), Fault>
    ensures ok { OnOk result (out.new.items ≡ out.old.items ++ mode_of ship_modes code) }
    ensures memory { IsOkUnless result Fault.Memory }
{
    match ship_modes {
        false => Ok(()),
        true => push_u16(out, code),
    }
}

fn push_summaries(out: &mut Vec<u8>, measures: &Summaries) -> Result<(), Fault>
    ensures ok { OnOk result (out.new.items ≡ out.old.items ++ summaries_of measures.now) }
    ensures memory { IsOkUnless result Fault.Memory }
{
    push_summary(out, measures.quantity)?;
    push_summary(out, measures.extendedprice)?;
    push_summary(out, measures.revenue)?;
    push_summary(out, measures.supplycost)?;
    push_summary(out, measures.discounted)?;
    push_summary(out, measures.profit)
}

fn push_summary(out: &mut Vec<u8>, summary: Summary) -> Result<(), Fault>
    ensures ok { OnOk result (out.new.items ≡ out.old.items ++ summary_of summary) }
    ensures memory { IsOkUnless result Fault.Memory }
{
    push_i64(out, summary.sum)?;
    push_i64(out, summary.least)?;
    push_i64(out, summary.greatest)
}
