//! Laws of answers over a warehouse: each function proves the statement that its contract names, and does nothing.
ghost use Rattle.warehouse_jobs.specs.AnswersLawful.{AnsweredWithoutShipModes, AskedWithoutShipModes};

/// A query that does not look at ship modes is asked over the first batches exactly where it is as a query of the
/// dimensions alone.
pub fn asked_without_ship_modes()
    ensures { AskedWithoutShipModes }
{}

/// A query that does not look at ship modes has over the first batches the answer that it has as a query of the
/// dimensions alone.
pub fn answered_without_ship_modes()
    ensures { AnsweredWithoutShipModes }
{}
