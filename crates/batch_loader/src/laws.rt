//! Laws of the grammar.
ghost use Rattle.batch_loader.specs.Grammar.{FieldsAreSpelled, LinesAreSpelled};

/// A text has just the lines that it spells.
pub fn lines_are_spelled()
    ensures { LinesAreSpelled }
{}

/// A line has just the fields that it spells.
pub fn fields_are_spelled()
    ensures { FieldsAreSpelled }
{}
