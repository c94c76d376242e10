//! Laws of an evaluation.
ghost use Rattle.ssb_eval.specs.Evaluation.{FactsAreRows};

/// The rows that the batches of a fact text give, put end to end, are the rows of the whole text.
pub fn facts_are_the_rows_of_their_text()
    ensures { FactsAreRows }
{}
