//! Laws of the definitions: each function proves the statement that its contract names, and does nothing.
ghost use Rattle.lattice.specs.Laws.{AnsweringIsAPartialOrder, IndexesNameViews, ServingGoesDown, LevelsDetermine};

/// Answering is a partial order of the views.
pub fn answering_is_a_partial_order()
    ensures { AnsweringIsAPartialOrder }
{}

/// A view's number is its place in the lattice.
pub fn indexes_name_views()
    ensures { IndexesNameViews }
{}

/// A view that answers another serves each query that the other serves.
pub fn serving_goes_down()
    ensures { ServingGoesDown }
{}

/// The member of a level tells the attributes that the level is said to determine.
pub fn levels_determine()
    ensures { LevelsDetermine }
{}
