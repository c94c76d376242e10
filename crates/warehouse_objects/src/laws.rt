//! Laws of the definitions: each function proves the statement that its contract names, and does nothing.
ghost use Rattle.warehouse_objects.specs.Lawful.{AimingRepresents, AppendingRepresents, ChoosingRepresents};
ghost use Rattle.warehouse_objects.specs.Lawful.{ContentIsOneWarehouse, CreatingRepresents, LoadingRepresents};
ghost use Rattle.warehouse_objects.specs.Lawful.{MergingRepresents, ModesAreOne, ObjectsAreStorable, RowsAreOne};

/// A content that is made of storable dimension rows and the first root of a layout represents the warehouse of no
/// batch.
pub fn creating_represents()
    ensures { CreatingRepresents }
{}

/// A commit of an admissible batch, with the root that says so, makes a content that represents one batch more.
pub fn loading_represents()
    ensures { LoadingRepresents }
{}

/// The objects of storable dimension rows and of an admissible batch are such as a store takes.
pub fn objects_are_storable()
    ensures { ObjectsAreStorable }
{}

/// Objects 1 to 4 are the dimensions of one list of rows at most.
pub fn rows_are_one()
    ensures { RowsAreOne }
{}

/// Object 5 has the ship modes of the warehouse that a content represents.
pub fn modes_are_one()
    ensures { ModesAreOne }
{}

/// A content represents one warehouse at most: one list of dimension rows, and one list of batches.
pub fn content_is_one_warehouse()
    ensures { ContentIsOneWarehouse }
{}

/// A commit of the root with the count of batches as its target makes a content whose cuboids are to hold all of them.
pub fn aiming_represents()
    ensures { AimingRepresents }
{}

/// A commit of one run more makes a content that represents the warehouse with it.
pub fn appending_represents()
    ensures { AppendingRepresents }
{}

/// And so does a commit of one run in the place of all of its cuboid.
pub fn merging_represents()
    ensures { MergingRepresents }
{}

/// A commit of the root with the cuboids of some views, at most 16, that drops the runs of the others, makes a content
/// that represents the warehouse with these views.
pub fn choosing_represents()
    ensures { ChoosingRepresents }
{}
