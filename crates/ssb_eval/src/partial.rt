//! A query over the texts of the five tables, with a partial report.
ghost use Rattle.std.specs.Prelude.{◌≡◌, Ok, Err, IfOk};
ghost use Rattle.std.specs.Io.KnownBytes.{Keeps};
ghost use Rattle.cube_model.specs.Proper.{IsProper};
ghost use Rattle.dimension_tables.specs.Texts.{TableTexts, dimensions_of};
ghost use Rattle.ssb_eval.specs.Evaluation.{EndsEvaluation};
ghost use Rattle.ssb_eval.specs.Partial.{partial_of};
ghost use Rattle.ssb_eval.specs.Tables.{IsFresh, IsUnreadStar, KeepsCause, KeepsUnknown};

use crate::star::Tables;
use cube_model::Fault;
use dimensions::Dims;
use mode_queries::QueryRef;
use partial_reports::{PartAsked, begin_partial, write_partial};
use std::alloc::Global;
use std::io::{Read, Write};

/// Writes the partial report that is asked for as `eval_formatted` writes a whole one, and returns the dimensions.
/// `BadLayout` comes last, where a member has a bar or a line feed or is the text ALL, and then nothing is written.
pub fn eval_partial<
    C: Read + Drop,
    S: Read + Drop,
    P: Read + Drop,
    D: Read + Drop,
    L: Read + Drop,
    W: Write,
>(
    alloc: Global,
    tables: &mut Tables<C, S, P, D, L>,
    asked: &PartAsked,
    out: &mut W,
) -> Result<Dims, Fault>
    // Of a proper query the outcome is that of the texts.
    ensures proper { IsProper asked.now.query → (texts : TableTexts) → IsUnreadStar tables.old texts
        → EndsEvaluation (W.contents out.old) (W.contents out.new) (partial_of asked.now texts) result }

    // The dimensions are those of the texts.
    ensures dims { (texts : TableTexts) → IsUnreadStar tables.old texts
        → IfOk result (λ dims. dimensions_of texts ≡ Ok dims) }

    // Any other query is refused before a text is read.
    ensures improper { (IsProper asked.now.query → ⊥) → (result ≡ Err Fault.BadQuery)
        × Keeps (W.contents out.old) (W.contents out.new) }

    // After a refusal the tables have what was refused.
    ensures cause { IsFresh tables.old → KeepsCause tables.new result }
    ensures unknown { (texts : TableTexts) → IsUnreadStar tables.old texts → KeepsUnknown texts tables.new }
{
    let proper = QueryRef::Plain(&asked.query).check()?;
    let found = tables.evaluate(alloc, proper)?;
    let head = begin_partial(alloc, asked, &found.dims, &found.answered.over(&found.dims))?;
    write_partial(
        asked,
        head.as_slice(),
        &found.answered.over(&found.dims),
        out,
    )?;
    Ok(found.dims)
}
