//! Laws of fields: each function proves the statement that its contract names, and does nothing.
ghost use Rattle.report_formats.specs.Lawful.{CsvReadsBack, TsvReadsBack};

/// A field of csv is read back as its text.
pub fn csv_reads_back()
    ensures { CsvReadsBack }
{}

/// A field of tsv is read back as its text.
pub fn tsv_reads_back()
    ensures { TsvReadsBack }
{}
