//! A query over the texts of the five tables.
ghost use Rattle.std.specs.Prelude.{◌≡◌, Err};
ghost use Rattle.std.specs.Io.KnownBytes.{Keeps};
ghost use Rattle.cube_model.specs.Proper.{IsProper};
ghost use Rattle.dimension_tables.specs.Texts.{TableTexts};
ghost use Rattle.ssb_eval.specs.Evaluation.{ReadersHave, EndsEvaluation, eval_of};

use crate::star::Tables;
use cube_model::{Fault, Query};
use mode_queries::QueryRef;
use ssb_reports::write_report;
use std::alloc::Global;
use std::io::{Read, Write};

/// Writes the report of the answer to a query over the rows that the texts of the five tables spell.
///
/// The first refusal decides, and nothing is written then: the query; the texts of customer,
/// supplier, part and date; the dimensions; and then, for each batch of 65,536 fact rows, its
/// lines and the check of the batch, its ship modes too. Memory grows with these, not with the rows.
pub fn eval_texts<
    C: Read + Drop,
    S: Read + Drop,
    P: Read + Drop,
    D: Read + Drop,
    L: Read + Drop,
    W: Write,
>(
    alloc: Global,
    customer: C,
    supplier: S,
    part: P,
    date: D,
    lineorder: L,
    query: &Query,
    out: &mut W,
) -> Result<(), Fault>
    // Of a proper query the outcome is that of the texts.
    ensures proper { IsProper query.now → (texts : TableTexts)
        → ReadersHave (C.remaining customer) (S.remaining supplier) (P.remaining part) (D.remaining date)
        (L.remaining lineorder) texts
        → EndsEvaluation (W.contents out.old) (W.contents out.new) (eval_of query.now texts) result }

    // Any other query is refused before a text is read.
    ensures improper { (IsProper query.now → ⊥) → (result ≡ Err Fault.BadQuery)
        × Keeps (W.contents out.old) (W.contents out.new) }
{
    let proper = QueryRef::Plain(query).check()?;
    let mut tables = Tables::new(alloc, customer, supplier, part, date, lineorder)?;
    let found = tables.evaluate(alloc, proper)?;
    write_report(query, &found.answered.over(&found.dims), out)
}
