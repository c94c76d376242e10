//! Partial reports merged.
ghost use Rattle.std.specs.Prelude.{◌≡◌, ◌++◌, IfErr, IfNone, IfOk, IfSome, OnOk, IsOkUnless};
ghost use Rattle.partial_reports.specs.Finishing.{CanBeFinished, FinishRefuses};
ghost use Rattle.partial_reports.specs.Parts.{partial_query};
ghost use Rattle.partial_reports.specs.Wide.{narrow_lines};
ghost use Rattle.mode_queries.specs.Lawful.{without_modes};
ghost use Rattle.partial_reports.specs.Head.{head_text};
ghost use Rattle.report_formats.specs.Asked.{asked_for, query_for};
ghost use Rattle.report_merge.specs.Finishing.{finished_for, partial_for};
ghost use Rattle.report_merge.specs.Kept.{IsKeptPart, IsMore};
ghost use Rattle.report_merge.specs.Merging.{AddsPart, AreOfOne, IsMergedPart, IsPartialReport, IsWhole, Part};
ghost use Rattle.report_merge.specs.Numbers.{IsFirstGap};
ghost use Rattle.report_merge.specs.Refusals.{RefusesAdding, AreDisjoint, IsUnlike, NewRefuses, UnlessMemory};
ghost use Rattle.report_merge.specs.Written.{WritesOrKeeps};
ghost use Rattle.ssb_reports.specs.Report.{report_of};
ghost use Rattle.ssb_reports.specs.Writing.{Writes};

use crate::finishing::{asks_for_counts, counted_lines, finished};
use crate::lines::narrow_lines;
use crate::numbers::{first_missing, merged_numbers};
use crate::refused::Refused;
use crate::words::{are_same, queries_of};
use cube_model::{Answer, Fault, Items, Query};
use mode_queries::ModeQuery;
use partial_reports::{
    Head, HeadRead, WideLine, head_text, merge_in, read_answer, read_head, widened,
};
use report_formats::{Asked, Layout};
use ssb_reports::{write_bytes, write_report};
use std::alloc::Global;
use std::io::Write;
use std::marker::Model;

/// Some partial reports of one query over the same dimension rows, merged.
#[derive(Drop)]
pub struct Merge {
    head: Head,
    digest: [u8; 32],
    query: Query,
    // The query for partial answers.
    partial: Query,
    lines: Vec<WideLine>,
}

impl Model for Merge {
    ghost Value = { Part };

    ghost view = { λ merge. record {
      head = merge.head;
      digest = merge.digest;
      query = merge.query;
      answer = record { lines = narrow_lines merge.lines.items };
    } };

    ghost invariant = { λ merge. IsKeptPart merge.head merge.digest merge.query merge.partial merge.lines.items };
}

// What is read of one more part: the numbers of all parts with its own, and its partial answer.
#[derive(Drop)]
struct More {
    numbers: Items<u32>,
    answer: Answer,
}

impl Merge {
    /// What a partial report has.
    ///
    /// `At` where the text is no partial report; or `Memory`.
    pub fn new(alloc: Global, text: &[u8]) -> Result<Merge, Refused>
        ensures ok { IfOk result (IsPartialReport text.now) }
        ensures complete { (part : Part) → IsPartialReport text.now part → UnlessMemory result (λ merge. merge ≡ part) }
        ensures refused { IfErr result (NewRefuses text.now) }
    {
        let HeadRead {
            head,
            digest,
            report,
            line,
        } = read_head(alloc, text)?;
        let (query, partial) = queries_of(alloc, head.words.as_slice())?;
        let answer = read_answer(alloc, &partial, line, report)?;
        let lines = widened(alloc, answer.lines)?;
        Ok(Merge {
            head,
            digest,
            query,
            partial,
            lines,
        })
    }

    /// With one more partial report.
    ///
    /// `At` where the text is no partial report; `OtherWords`, `OtherParts`, `OtherDimensions` and `Twice`, in this
    /// order, where its head is not that of one more part of the whole; or `Memory`. `Twice` has the least number that
    /// is in both.
    pub fn add(self, alloc: Global, text: &[u8]) -> Result<Merge, Refused>
        ensures ok { IfOk result (AddsPart self text.now) }
        ensures complete { (other : Part) → IsPartialReport text.now other → AreOfOne self other
            → AreDisjoint self.head.numbers other.head.numbers
            → UnlessMemory result (IsMergedPart self other) }
        ensures refused { IfErr result (RefusesAdding self text.now) }
    {
        let More { numbers, answer } = self.more(alloc, text)?;
        let Merge {
            head,
            digest,
            query,
            partial,
            lines,
        } = self;
        let lines = merge_in(alloc, &partial, lines, answer)?;
        Ok(Merge {
            head: with_numbers(head, numbers),
            digest,
            query,
            partial,
            lines,
        })
    }

    // What is read of one more partial report.
    fn more(&self, alloc: Global, text: &[u8]) -> Result<More, Refused>
        ensures ok { IfOk result (λ more. IsMore self.now text.now more.numbers more.answer) }
        ensures refused { IfErr result (RefusesAdding self.now text.now) }
    {
        let read = read_head(alloc, text)?;
        check_alike(&self.head, &self.digest, &read)?;
        let numbers = merged_numbers(
            alloc,
            self.head.parts,
            self.head.numbers.as_slice(),
            read.head.numbers.as_slice(),
        )?;
        let answer = read_answer(alloc, &self.partial, read.line, read.report)?;
        Ok(More { numbers, answer })
    }

    /// The lowest number of a part that is not in. Without one the parts are the whole.
    pub fn first_missing(&self) -> Option<u32>
        ensures none { IfNone result (IsWhole self.now.head) }
        ensures some { IfSome result (IsFirstGap self.now.head.parts self.now.head.numbers) }
    {
        first_missing(self.head.parts, self.head.numbers.as_slice())
    }

    /// The numbers of the parts, and the words of the query.
    pub fn head(&self) -> &Head
        ensures { result.now ≡ self.now.head }
    {
        &self.head
    }

    /// The query that the words spell.
    pub fn query(&self) -> &Query
        ensures { result.now ≡ self.now.query }
    {
        &self.query
    }

    /// What is asked for in a layout, and the answer to it over the rows of all parts.
    ///
    /// `SumRange` and `TooManyRows` where a number passes 64 bits, `BadLayout` where a line counts no row; or `Memory`.
    pub fn finish(self, alloc: Global, layout: Layout) -> Result<(Asked, Answer), Fault>
        ensures asked { IfOk result (λ done. done.0 ≡ asked_for layout (without_modes self.query)) }
        ensures answer { IfOk result (λ done. done.1 ≡ finished_for layout self.query self.answer) }
        ensures complete { CanBeFinished self.answer → IsOkUnless result Fault.Memory }
        ensures refused { IfErr result
            (FinishRefuses (query_for layout self.query).aggregates (partial_for layout self.query self.answer).lines) }
    {
        let Merge {
            head: _,
            digest: _,
            query,
            partial: _,
            lines,
        } = self;
        let counts = asks_for_counts(layout, &query);
        let asked = Asked::new(alloc, layout, ModeQuery::without_modes(alloc, query))?;
        let lines = counted_lines(alloc, counts, lines)?;
        let answer = finished(alloc, &asked.query.query, lines)?;
        Ok((asked, answer))
    }

    /// Hands a writer the merged parts as a partial report, and flushes it.
    ///
    /// Before anything is written `SumRange` and `TooManyRows`, where a number passes 64 bits, or `Memory`; and
    /// `Output` where the writer fails, after a beginning of the report.
    pub fn write_partial<W: Write>(&self, alloc: Global, out: &mut W) -> Result<(), Fault>
        ensures { WritesOrKeeps (W.contents out.old) (W.contents out.new) result
            (head_text self.now.head self.now.digest ++ report_of (partial_query self.now.query) self.now.answer) }
    {
        let head = head_text(alloc, &self.head, &self.digest)?;
        let lines = narrow_lines(
            alloc,
            self.partial.aggregates.as_slice(),
            self.lines.as_slice(),
        )?;
        write_text(&self.partial, head.as_slice(), &Answer { lines }, out)
    }
}

// A head with the numbers of more parts.
fn with_numbers(head: Head, numbers: Items<u32>) -> Head
    ensures { result ≡ record head { numbers = numbers } }
{
    let Head {
        numbers: _,
        parts,
        words,
    } = head;
    Head {
        numbers,
        parts,
        words,
    }
}

// Checks that a head is of the same words, the same whole and the same dimension rows.
fn check_alike(head: &Head, digest: &[u8; 32], read: &HeadRead<'_>) -> Result<(), Refused>
    ensures words { OnOk result (read.now.head.words ≡ head.now.words) }
    ensures parts { OnOk result (read.now.head.parts ≡ head.now.parts) }
    ensures dimensions { OnOk result (read.now.digest ≡ digest.now) }
    ensures refused { IfErr result (IsUnlike head.now digest.now read.now.head read.now.digest) }
{
    if !are_same(head.words.as_slice(), read.head.words.as_slice()) {
        return Err(Refused::OtherWords);
    }
    if read.head.parts != head.parts {
        return Err(Refused::OtherParts);
    }
    if read.digest.as_slice() != digest.as_slice() {
        return Err(Refused::OtherDimensions);
    }
    Ok(())
}

// Hands a writer the text of a head and a report, and flushes it.
fn write_text<W: Write>(
    query: &Query,
    head: &[u8],
    answer: &Answer,
    out: &mut W,
) -> Result<(), Fault>
    ensures { Writes (W.contents out.old) (W.contents out.new) result (head.now ++ report_of query.now answer.now) }
{
    write_bytes(out, head)?;
    write_report(query, answer, out)
}
