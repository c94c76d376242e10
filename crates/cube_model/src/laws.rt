//! Laws of the definitions: each function proves the statement that its contract names, and does nothing.
ghost use Rattle.cube_model.specs.Lawful.{AnswerIsTheOne, RowsOfAKey, KeysAreInTotalOrder, FractionIsTheOne};
ghost use Rattle.cube_model.specs.Lawful.{ValidRowsKeepTheRules};

/// The answer is the one list of lines that is in order and has just the right lines.
pub fn answer_is_the_one()
    ensures { AnswerIsTheOne }
{}

/// The lines of one grouping set part the rows.
pub fn rows_of_a_key()
    ensures { RowsOfAKey }
{}

/// The order of keys is total, and only equal keys tie.
pub fn keys_are_in_total_order()
    ensures { KeysAreInTotalOrder }
{}

/// An average is a fraction in lowest terms, and the only one.
pub fn fraction_is_the_one()
    ensures { FractionIsTheOne }
{}

/// Dimension rows are valid exactly where they keep each rule.
pub fn valid_rows_keep_the_rules()
    ensures { ValidRowsKeepTheRules }
{}
