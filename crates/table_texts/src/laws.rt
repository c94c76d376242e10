//! Laws of tables: each function proves the statement that its contract names, and does nothing.
ghost use Rattle.table_texts.specs.Lawful.{DimensionsReadBack, FactsReadBack};

/// A table of fact rows that was written is read back.
pub fn facts_read_back()
    ensures { FactsReadBack }
{}

/// A table of a dimension that was written is read back.
pub fn dimensions_read_back()
    ensures { DimensionsReadBack }
{}
