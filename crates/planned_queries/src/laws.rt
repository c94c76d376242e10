//! Laws of plans: each function proves the statement that its contract names, and does nothing.
ghost use Rattle.planned_queries.specs.Lawful.{PlannedWithoutShipModes};

/// A query that does not look at ship modes has the plans that it has as a query of the dimensions alone.
pub fn planned_without_ship_modes()
    ensures { PlannedWithoutShipModes }
{}
