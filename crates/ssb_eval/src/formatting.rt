//! A query over the texts of the five tables, with its report in a layout.
ghost use Rattle.std.specs.Prelude.{◌≡◌, Ok, Err, IfOk};
ghost use Rattle.std.specs.Io.KnownBytes.{Keeps};
ghost use Rattle.dimension_tables.specs.Texts.{TableTexts, dimensions_of};
ghost use Rattle.mode_queries.specs.Proper.{IsProperByModes};
ghost use Rattle.ssb_eval.specs.Evaluation.{EndsEvaluation, formatted_of};
ghost use Rattle.ssb_eval.specs.Tables.{IsFresh, IsUnreadStar, KeepsCause, KeepsUnknown};

use crate::star::Tables;
use cube_model::Fault;
use dimensions::Dims;
use report_formats::{Asked, write_formatted};
use std::alloc::Global;
use std::io::{Read, Write};

/// Writes the report that is asked for as `eval_texts` writes one with bars, over tables of which nothing was read yet,
/// and returns the dimensions.
///
/// The query may look at ship modes. Where one of its columns is the ship mode, memory grows with the groups of each
/// ship mode, and still not with the rows.
pub fn eval_formatted<
    C: Read + Drop,
    S: Read + Drop,
    P: Read + Drop,
    D: Read + Drop,
    L: Read + Drop,
    W: Write,
>(
    alloc: Global,
    tables: &mut Tables<C, S, P, D, L>,
    asked: &Asked,
    out: &mut W,
) -> Result<Dims, Fault>
    // Of a proper query the outcome is that of the texts.
    ensures proper { IsProperByModes asked.now.query → (texts : TableTexts) → IsUnreadStar tables.old texts
        → EndsEvaluation (W.contents out.old) (W.contents out.new) (formatted_of asked.now texts) result }

    // The dimensions are those of the texts.
    ensures dims { (texts : TableTexts) → IsUnreadStar tables.old texts
        → IfOk result (λ dims. dimensions_of texts ≡ Ok dims) }

    // Any other query is refused before a text is read.
    ensures improper { (IsProperByModes asked.now.query → ⊥) → (result ≡ Err Fault.BadQuery)
        × Keeps (W.contents out.old) (W.contents out.new) }

    // After a refusal the tables have what was refused.
    ensures cause { IsFresh tables.old → KeepsCause tables.new result }
    ensures unknown { (texts : TableTexts) → IsUnreadStar tables.old texts → KeepsUnknown texts tables.new }
{
    let proper = asked.query.check()?;
    let found = tables.evaluate(alloc, proper.into_ref())?;
    write_formatted(alloc, asked, &found.answered.over(&found.dims), out)?;
    Ok(found.dims)
}
