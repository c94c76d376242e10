//! Laws of added dimension rows: each function proves the statement that its contract names, and does nothing.
ghost use Rattle.stored_rows.specs.Lawful.{AdmissionsStay, AnswersAsOfStay, AnswersStay, CellsStay, WideningRepresents};

/// A query over fact rows whose keys are known has the same answer after rows are added to dimensions.
pub fn answers_stay()
    ensures { AnswersStay }
{}

/// A query over the first batches of a warehouse has the same answer after rows are added to its dimensions.
pub fn answers_as_of_stay()
    ensures { AnswersAsOfStay }
{}

/// A batch that is admissible stays so after rows are added to dimensions.
pub fn admissions_stay()
    ensures { AdmissionsStay }
{}

/// Cells hold the grouping of the same fact rows after rows are added to dimensions.
pub fn cells_stay()
    ensures { CellsStay }
{}

/// A commit of the dimensions that have new rows, with a root that counts the addition, makes a content that represents
/// the warehouse with these rows.
pub fn widening_represents()
    ensures { WideningRepresents }
{}
