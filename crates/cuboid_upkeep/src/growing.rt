//! The cells of a view that grow with the fact rows.
ghost use Rattle.std.specs.Prelude.{◌≡◌, ◌≤◌, ◌++◌, [], List, IfErr, IfOk, OnOk, length, IsOkUnless};
ghost use Rattle.std.specs.Option.{option_map};
ghost use Rattle.cube_model.specs.declared.fault.Fault.{Fault};
ghost use Rattle.cube_model.specs.declared.rows.DimRows.{DimRows};
ghost use Rattle.cube_model.specs.declared.rows.LineOrder.{LineOrder};
ghost use Rattle.cube_model.specs.Limits.{most_batch_rows};
ghost use Rattle.cuboid_upkeep.specs.Codes.{modes_of};
ghost use Rattle.cuboid_upkeep.specs.Grouping.{RepresentRows};
ghost use Rattle.cuboid_upkeep.specs.Steps.{IsAddFault};
ghost use Rattle.cuboid_upkeep.specs.Growing.{GrowOver, grown};

use crate::member_codes::ViewMembers;
use crate::merging::merge_rows;
use crate::table::CellTable;
use cube_model::Fault;
use cuboid_cells::Cells;
use dictionary::Dictionary;
use dimensions::Dims;
use group_numbers::ModeRows;
use lattice::View;
use std::alloc::Global;

/// The cells of a view, batch after batch of fact rows.
#[derive(Drop)]
pub enum GrowingCells {
    /// In one table, where the members of the view's levels have no more choices than a cuboid can have cells. A row is
    /// taken in where it belongs, and nothing is sorted or merged.
    ByNumber(CellTable),
    /// Those of each batch merged into those of the batches before, by the codes of the members, for every other view.
    Merged(Cells, ViewMembers),
}

impl GrowingCells {
    /// No cell of a view. It can only fail when out of memory.
    pub fn new(alloc: Global, dims: &Dims, view: View) -> Result<GrowingCells, Fault>
        ensures over { IfOk result (GrowOver dims.now) }
        ensures none { IfOk result (λ cells. grown cells ≡ record { view = view; cells = [] }) }
        ensures memory { IsOkUnless result Fault.Memory }
    {
        let members = ViewMembers::of(alloc, dims, view)?;
        if view.ship_mode {
            return Ok(GrowingCells::Merged(Cells::empty(alloc, view), members));
        }
        let Some(size) = members.size() else {
            return Ok(GrowingCells::Merged(Cells::empty(alloc, view), members));
        };
        let table = CellTable::new(alloc, view, members, size)?;
        Ok(GrowingCells::ByNumber(table))
    }

    /// Takes fact rows in: the cells then represent the rows that they represented with these after them. The modes are
    /// the ship modes, whose places are the fifth codes of cells; only a view that groups by ship mode looks at them.
    ///
    /// `TooManyCells` where there would be more than 262,144 cells. `BadLayout` where a row has a key that is not in
    /// its dimension, where a count, a sum or a number would exceed its type, and, if the view groups by ship mode,
    /// where a row has a ship mode that is none of the modes. It can also fail when out of memory. After an error the
    /// cells represent nothing.
    pub fn add_rows<F: ModeRows>(
        &mut self,
        alloc: Global,
        dims: &Dims,
        rows: &F,
        modes: Option<&Dictionary>,
    ) -> Result<(), Fault>
        requires over { GrowOver dims.now self.old }
        requires batch { length (F.rows rows.now) ≤ most_batch_rows }
        ensures ok { OnOk result ((so_far : List LineOrder)
            → RepresentRows dims.now (modes_of (option_map (λ modes. modes.now) modes.entry)) so_far (grown self.old)
            → RepresentRows dims.now (modes_of (option_map (λ modes. modes.now) modes.entry))
            (so_far ++ F.rows rows.now) (grown self.new)) }
        ensures over { OnOk result (GrowOver dims.now self.new) }
        ensures refused { IfErr result (λ fault. (so_far : List LineOrder)
            → RepresentRows dims.now (modes_of (option_map (λ modes. modes.now) modes.entry)) so_far (grown self.old)
            → IsAddFault dims.now (modes_of (option_map (λ modes. modes.now) modes.entry)) (grown self.old).view
            (so_far ++ F.rows rows.now) fault) }

        // Also after an error.
        ensures view { (grown self.new).view ≡ (grown self.old).view }
    {
        match self {
            GrowingCells::ByNumber(table) => table.add_rows(alloc, dims, rows),
            GrowingCells::Merged(cells, members) => {
                merge_rows(cells, alloc, dims, members, rows, modes)
            }
        }
    }

    /// The cells so far. It can only fail when out of memory.
    pub fn finish(self, alloc: Global) -> Result<Cells, Fault>
        requires { (dimensions : DimRows) × GrowOver dimensions self }
        ensures ok { IfOk result (λ cells. cells ≡ grown self) }
        ensures memory { IsOkUnless result Fault.Memory }
    {
        match self {
            GrowingCells::ByNumber(table) => Ok(table.finish(alloc)?),
            GrowingCells::Merged(cells, _) => Ok(cells),
        }
    }
}
