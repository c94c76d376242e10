//! Laws of the merge: each function proves the statement that its contract names, and does nothing.
ghost use Rattle.partial_reports.specs.MergeLawful.{AnswersMerge, MergedReportsAreTheReport, NeighboursMayChangePlaces};
ghost use Rattle.partial_reports.specs.MergeLawful.{PartialAnswersAreReadable, PartialAnswersCanBeFinished};
ghost use Rattle.partial_reports.specs.MergeLawful.{PartialAnswersSuffice, PartsMakeTheAnswer, ReportsReadBack};
ghost use Rattle.partial_reports.specs.MergeLawful.{MergedNumbersFit, MergingIsAssociative, MergeIsTheOne};

/// The answer over rows put end to end is the merge of the answers.
pub fn answers_merge()
    ensures { AnswersMerge }
{}

/// An answer is made of the partial answer.
pub fn partial_answers_suffice()
    ensures { PartialAnswersSuffice }
{}

/// An answer is made of the partial answers over any number of parts.
pub fn parts_make_the_answer()
    ensures { PartsMakeTheAnswer }
{}

/// A report tells which answer it is of.
pub fn reports_read_back()
    ensures { ReportsReadBack }
{}

/// Partial answers can be read back.
pub fn partial_answers_are_readable()
    ensures { PartialAnswersAreReadable }
{}

/// What is read from the reports of partial answers makes the report of the whole.
pub fn merged_reports_are_the_report()
    ensures { MergedReportsAreTheReport }
{}

/// The order of the parts makes no difference.
pub fn neighbours_may_change_places()
    ensures { NeighboursMayChangePlaces }
{}

/// The numbers of merged partial answers have 64 bits where one warehouse takes all rows.
pub fn merged_numbers_fit()
    ensures { MergedNumbersFit }
{}

/// Partial answers can be finished where one warehouse takes all rows.
pub fn partial_answers_can_be_finished()
    ensures { PartialAnswersCanBeFinished }
{}

/// Answers merge in any grouping.
pub fn merging_is_associative()
    ensures { MergingIsAssociative }
{}

/// Only one list of lines is the merge of two.
pub fn merge_is_the_one()
    ensures { MergeIsTheOne }
{}
