//! Laws of the definitions: each function proves the statement that its contract names, and does nothing.
ghost use Rattle.report_formats.specs.OrderLawful.{AnswersAreSorted, AveragesSortAlike};

/// The lines of an answer are all there once sorted, and each is below those after it.
pub fn answers_are_sorted()
    ensures { AnswersAreSorted }
{}

/// Averages compare as their sums over their counts.
pub fn averages_sort_alike()
    ensures { AveragesSortAlike }
{}
