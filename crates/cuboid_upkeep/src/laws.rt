//! Laws of the definitions: each function proves the statement that its contract names, and does nothing.
ghost use Rattle.cuboid_upkeep.specs.Lawful.{CellsAreTheOne, MergesRepresentBoth, ModesAreAddedAfter};
ghost use Rattle.cuboid_upkeep.specs.Lawful.{MoreRowsHaveNoFewerCells, OneKeyOneGroup, RowsHaveCells, RowsInRangeFit};

/// The cells of fact rows put end to end are the merge of their cells.
pub fn merges_represent_both()
    ensures { MergesRepresentBoth }
{}

/// Cells represent the same rows when modes are added after the others.
pub fn modes_are_added_after()
    ensures { ModesAreAddedAfter }
{}

/// Fact rows have one list of cells.
pub fn cells_are_the_one()
    ensures { CellsAreTheOne }
{}

/// Fact rows whose sums are in range have no cell that passes a type.
pub fn rows_in_range_fit()
    ensures { RowsInRangeFit }
{}

/// Fact rows of one key in a view are in one group of each query that the view serves.
pub fn one_key_one_group()
    ensures { OneKeyOneGroup }
{}

/// Fact rows that have their members have cells.
pub fn rows_have_cells()
    ensures { RowsHaveCells }
{}

/// The cells of some fact rows are no more than those of these and others.
pub fn more_rows_have_no_fewer_cells()
    ensures { MoreRowsHaveNoFewerCells }
{}
