//! The cells of a view.
ghost use Rattle.std.specs.Prelude.{◌≡◌, ◌⊎◌, ◌<◌, [], IfErr, IfOk, OnErr, OnOk, IsOkUnless};
ghost use Rattle.cube_model.specs.declared.fault.Fault.{Fault};
ghost use Rattle.cuboid_cells.specs.Cells.{AreProperCells, PlainCells};
ghost use Rattle.cuboid_cells.specs.Merges.{IsMergeFault, IsMergeOf};
ghost use Rattle.cuboid_cells.specs.Spelled.{IsRun};

use crate::cell::Cell;
use crate::encoding::{bytes_of_cell, push_cells, push_header};
use crate::merging::merge_cells;
use crate::reading::{read_cells, read_header};
use crate::span::Span;
use cube_model::Fault;
use lattice::View;
use std::alloc::Global;
use std::marker::Model;
use wire::Cursor;

/// The cells of a view by ascending keys. They keep the rules of cells.
#[derive(Drop)]
pub struct Cells {
    view: View,
    cells: Vec<Cell>,
}

impl Model for Cells {
    ghost use Rattle.cuboid_cells.specs.Cells.{AreProperCells, PlainCells};

    ghost Value = { PlainCells };

    ghost view = { λ cells. record { view = cells.view; cells = cells.cells.items } };

    ghost invariant = { λ cells. AreProperCells (record { view = cells.view; cells = cells.cells.items }) };
}

impl Cells {
    ghost use Rattle.cuboid_cells.specs.declared.span.Span.{Span};

    /// No cell, as of no fact row.
    pub fn empty(alloc: Global, view: View) -> Cells
        ensures { result ≡ record { view = view; cells = [] } }
    {
        Cells {
            view,
            cells: Vec::new(alloc),
        }
    }

    /// Cells that keep the rules of the cells of a view.
    pub fn of(view: View, cells: Vec<Cell>) -> Cells
        requires { AreProperCells (record { view = view; cells = cells.items }) }
        ensures { result ≡ record { view = view; cells = cells.items } }
    {
        Cells { view, cells }
    }

    /// The view.
    pub fn view(&self) -> View
        ensures value { result ≡ self.now.view }

        // Cells keep their rules.
        ensures proper { AreProperCells self.now }
    {
        self.view
    }

    /// The cells, by ascending keys.
    pub fn as_slice(&self) -> &[Cell]
        ensures cells { result.now ≡ self.now.cells }
        ensures proper { AreProperCells self.now }
    {
        &self.cells
    }

    /// Takes in the cells of further fact rows: the cell of a key becomes the merge of the cells of that key.
    ///
    /// `TooManyCells` where the merge has more than 262,144 cells, `BadLayout` where a count or a sum would pass its
    /// type. It can also fail when out of memory. After an error the cells are as before.
    pub fn merge(&mut self, alloc: Global, other: &Cells) -> Result<(), Fault>
        requires view { other.now.view ≡ self.old.view }
        ensures ok { OnOk result (IsMergeOf self.old other.now self.new) }
        ensures refused { IfErr result (IsMergeFault self.old other.now) }
        ensures unchanged { OnErr result (self.new ≡ self.old) }
        ensures before { AreProperCells self.old × AreProperCells other.now }
        ensures proper { AreProperCells self.new }
    {
        let cells = merge_cells(alloc, self.view, &self.cells, &other.cells)?;
        self.cells = cells;
        Ok(())
    }

    /// The bytes of the run of the cells over some batches.
    pub fn encode(&self, alloc: Global, span: Span) -> Result<Vec<u8>, Fault>
        requires some { span.from < span.to }
        ensures ok { IfOk result (λ bytes. IsRun bytes.items span self.now) }
        ensures memory { IsOkUnless result Fault.Memory }
    {
        let (modes, count) = (self.view.ship_mode, self.cells.len());
        let mut out = Vec::with_capacity(alloc, 20 + bytes_of_cell(modes) * count)?;
        push_header(
            &mut out,
            modes,
            u32::from(self.view.index()),
            span,
            count as u32,
        )?;
        push_cells(&mut out, modes, &self.cells)?;
        Ok(out)
    }

    /// The run that the bytes spell: its batches, and its cells. `BadLayout` where they spell none that keeps the
    /// rules.
    pub fn decode(alloc: Global, bytes: &[u8]) -> Result<(Span, Cells), Fault>
        ensures ok { IfOk result (λ run. IsRun bytes.now run.0 run.1) }
        ensures refused { IfErr result (λ fault. (fault ≡ Fault.Memory) ⊎ ((fault ≡ Fault.BadLayout)
            × ((span : Span) (plain : PlainCells) → IsRun bytes.now span plain → ⊥))) }
    {
        let mut cursor = Cursor::new(bytes);
        let header = read_header(&mut cursor)?;
        let Some(view) = header.view(bytes.len()) else {
            return Err(Fault::BadLayout);
        };
        let count = header.cells as usize;
        let (cells, fine) = read_cells(alloc, &mut cursor, view, count)?;
        if !fine {
            return Err(Fault::BadLayout);
        }
        let span = Span {
            from: header.from,
            to: header.to,
        };
        Ok((span, Cells { view, cells }))
    }
}
