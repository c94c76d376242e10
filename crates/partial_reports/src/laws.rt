//! Laws of partial reports: each function proves the statement that its contract names, and does nothing.
ghost use Rattle.partial_reports.specs.HeadLaws.{HeadsReadBack, PartialReportsReadBack};

/// A text tells the head that it begins with, the digest of the dimension rows, and what is after the head.
pub fn heads_read_back()
    ensures { HeadsReadBack }
{}

/// A partial report tells its head, the digest of the dimension rows and its answer.
pub fn partial_reports_read_back()
    ensures { PartialReportsReadBack }
{}
