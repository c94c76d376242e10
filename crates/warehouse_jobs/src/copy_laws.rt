//! Laws of the definitions: each function proves the statement that its contract names, and does nothing.
ghost use Rattle.warehouse_jobs.specs.Alike.{CopiesAnswerAlike, PartsAnswerAlike};

/// A copy answers each query as the first warehouse does, over the same first batches.
pub fn copies_answer_alike()
    ensures { CopiesAnswerAlike }
{}

/// What was copied of a warehouse so far answers each query over batches that are there as the warehouse does.
pub fn parts_answer_alike()
    ensures { PartsAnswerAlike }
{}
