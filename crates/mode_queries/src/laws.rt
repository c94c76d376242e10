//! Laws of queries that may look at ship modes: each function proves the statement that its contract names, and does
//! nothing.
ghost use Rattle.mode_queries.specs.Lawful.{AnswersJoin, AnswersWithoutShipModes};

/// A query that does not look at ship modes has the answer that it has as a query of the dimensions alone.
pub fn answers_without_ship_modes()
    ensures { AnswersWithoutShipModes }
{}

/// The answer to a query with a column of ship modes is made of answers to the query without it.
pub fn answers_join()
    ensures { AnswersJoin }
{}
