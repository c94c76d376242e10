//! Reading the lines of a partial report.
ghost use Rattle.std.specs.Prelude.{◌≡◌, [], ◌∷◌, ◌++◌, ◌<◌, ◌^◌, ℕ, List, None, length, IfOk, IfSome, IfNone};
ghost use Rattle.std.specs.Prelude.{IsSomeAnd, OnOk, IsOkUnless};
ghost use Rattle.cube_model.specs.declared.answer.Answer.{Answer};
ghost use Rattle.cube_model.specs.declared.answer.Line.{Line};
ghost use Rattle.cube_model.specs.Ascending.{IsAscending};
ghost use Rattle.cube_model.specs.Orders.{answer_cmp};
ghost use Rattle.partial_reports.specs.Readable.{IsReadableAnswer};
ghost use Rattle.ssb_reports.specs.Report.{count_text, header_text, line_text, report_of};
ghost use Rattle.partial_reports.specs.declared.refused.Refused.TheVariants.{Memory};
ghost use Rattle.partial_reports.specs.HeadReading.{UnlessMemory};
ghost use Rattle.partial_reports.specs.Reading.{AreLinesOf, IsNextLine, ReadsCount, ReadsLine, SpellsPartLines};

use crate::fields::parse_line;
use crate::head_reading::cut;
use crate::readable::{check_follows, check_readable};
use crate::refused::{Refused, Wrong};
use crate::rows::{after, spell_count, spell_row};
use cube_model::{Answer, Items, Line, Query};
use std::alloc::Global;

/// The answer to a query whose report is a text, which begins at a line of a file. The lines are in the order of their
/// keys.
///
/// `At` where the text is the report of no such answer; or `Memory`.
pub fn read_answer(alloc: Global, query: &Query, first: u64, text: &[u8]) -> Result<Answer, Refused>
    // No other answer has the report.
    ensures text { IfOk result (λ answer. text.now ≡ report_of query.now answer) }
    ensures readable { IfOk result (IsReadableAnswer query.now) }
    ensures rising { IfOk result (λ answer. IsAscending (answer_cmp None) answer.lines) }
    ensures complete { (answer : Answer) → IsReadableAnswer query.now answer
        → IsAscending (answer_cmp None) answer.lines → text.now ≡ report_of query.now answer
        → UnlessMemory result (λ read. read ≡ answer) }
{
    let left = after_names(alloc, query, first, text)?;
    let lines = read_lines(alloc, query, first.saturating_add(1), left)?;
    Ok(Answer { lines })
}

// What is after the line of the names.
fn after_names<'a>(
    alloc: Global,
    query: &Query,
    line: u64,
    text: &'a [u8],
) -> Result<&'a [u8], Refused>
    ensures text { IfOk result (λ left. text.now ≡ header_text query.now ++ left.now) }
    ensures complete { (left : List ℕ) → text.now ≡ header_text query.now ++ left
        → UnlessMemory result (λ rest. rest.now ≡ left) }
{
    let mut row = Vec::new(alloc);
    spell_row(
        &mut row,
        &query.columns.as_slice(),
        &query.aggregates.as_slice(),
    )?;
    match after(text, row.as_slice()) {
        Some(left) => Ok(left),
        None => Err(Refused::at(line, Wrong::Names)),
    }
}

// The lines up to their number, which ends the text. Each line takes a byte at least, so the loop does not end before.
#[tactic(auto, using(crate::proofs::ReadingLemmas::lines_taken))]
fn read_lines(alloc: Global, query: &Query, first: u64, text: &[u8]) -> Result<Items<Line>, Refused>
    ensures spelled { IfOk result (SpellsPartLines query.now text.now) }
    ensures complete { (lines : List Line) → SpellsPartLines query.now text.now lines
        → UnlessMemory result (λ read. read ≡ lines) }
{
    let mut lines = Items::new(alloc);
    let mut row = Vec::new(alloc);
    let mut left = text;
    let mut line = first;
    for _taken in 0..text.len() {
        match read_line(alloc, query, line, &mut lines, &mut row, left)? {
            Some(rest) => left = rest,
            None => return Ok(lines),
        }
        line = line.saturating_add(1);
    }
    // Each turn takes a byte, so the text was empty.
    Err(Refused::at(line, Wrong::Cut))
}

// Reads the next line, and gives what is after it; or nothing, where it is the number of lines and ends the text.
fn read_line<'a>(
    alloc: Global,
    query: &Query,
    number: u64,
    lines: &mut Items<Line>,
    row: &mut Vec<u8>,
    text: &'a [u8],
) -> Result<Option<&'a [u8]>, Refused>
    requires { AreLinesOf query.now lines.old }
    ensures line { IfOk result
        (λ rest. IfSome rest (λ left. ReadsLine query.now lines.old lines.new text.now left.now)) }
    ensures count { IfOk result (λ rest. IfNone rest (ReadsCount query.now lines.old lines.new text.now)) }
    ensures next { (next : Line) (left : List ℕ) → IsNextLine query.now lines.old next text.now left
        → UnlessMemory result
        (λ rest. IsSomeAnd rest (λ rest. rest.now ≡ left) × (lines.new ≡ lines.old ++ next ∷ [])) }
    ensures end { length lines.old < 2 ^ 63 → text.now ≡ count_text (length lines.old)
        → UnlessMemory result (λ rest. rest ≡ None) }
{
    let Some((front, back)) = cut(text, b'\n') else {
        return Err(Refused::at(number, Wrong::Cut));
    };
    if back.is_empty() {
        check_count(number, lines.len(), row, text)?;
        return Ok(None);
    }
    let line = parse_line(alloc, number, query, front)?;
    let left = after_line(number, query, lines.as_slice(), row, &line, text)?;
    lines.push(line)?;
    Ok(Some(left))
}

// Checks that a text is the number of the lines.
fn check_count(line: u64, count: usize, row: &mut Vec<u8>, text: &[u8]) -> Result<(), Refused>
    ensures text { OnOk result (text.now ≡ count_text count) }
    ensures few { OnOk result (count < 2 ^ 63) }
    ensures complete { count < 2 ^ 63 → text.now ≡ count_text count → IsOkUnless result Memory }
{
    spell_count(row, count)?;
    if text == row.as_slice() && count < 1 << 63 {
        return Ok(());
    }
    Err(Refused::at(line, Wrong::Count))
}

// What is after a line, where the text begins with it, it can be read back, and its key is above those of the lines
// before.
#[tactic(auto, using(crate::proofs::Rising::all_and))]
fn after_line<'a>(
    number: u64,
    query: &Query,
    lines: &[Line],
    row: &mut Vec<u8>,
    line: &Line,
    text: &'a [u8],
) -> Result<&'a [u8], Refused>
    requires { AreLinesOf query.now lines.now }
    ensures text { IfOk result (λ left. text.now ≡ line_text line.now ++ left.now) }
    ensures are { IfOk result (λ left. AreLinesOf query.now (lines.now ++ line.now ∷ [])) }
    ensures complete { (left : List ℕ) → IsNextLine query.now lines.now line.now text.now left
        → UnlessMemory result (λ rest. rest.now ≡ left) }
{
    check_readable(number, query, line)?;
    check_follows(number, lines, line)?;
    spell_row(row, &line.key.as_slice(), &line.values.as_slice())?;
    match after(text, row.as_slice()) {
        Some(left) => Ok(left),
        None => Err(Refused::at(number, Wrong::Field)),
    }
}
