//! Laws of merged partial reports: each function proves the statement that its contract names, and does nothing.
ghost use Rattle.report_merge.specs.Lawful.{CountsAreAppended, MergedTextsAreTheAnswer, MergedTextsCanBeFinished};
ghost use Rattle.report_merge.specs.Lawful.{PartialReportsAreOfOnePart, WrittenTextsCanBeMerged};

/// A text is the partial report of one part at most.
pub fn partial_reports_are_of_one_part()
    ensures { PartialReportsAreOfOnePart }
{}

/// What is finished for a layout is the answer to what is asked for in it.
pub fn counts_are_appended()
    ensures { CountsAreAppended }
{}

/// Texts that are written of parts of one whole, no number in two of them, can be merged.
pub fn written_texts_can_be_merged()
    ensures { WrittenTextsCanBeMerged }
{}

/// Where a text tells the head that it begins with, texts that are written of parts of the rows and merged make the
/// answer over all rows.
pub fn merged_texts_are_the_answer()
    ensures { MergedTextsAreTheAnswer }
{}

/// Texts that are written of parts of the rows, merged, can be finished where one warehouse takes all rows.
pub fn merged_texts_can_be_finished()
    ensures { MergedTextsCanBeFinished }
{}
