// The words of a query, and the report of it.
ghost use Rattle.std.specs.Prelude.{◌≡◌, ◌⊎◌, map, None, Some, IfErr, IfOk};
ghost use Rattle.std.specs.Option.{option_map};
ghost use Rattle.cube_model.specs.declared.fault.Fault.TheVariants.{BadQuery, Memory};
ghost use Rattle.query_words.specs.Given.{words_of};
ghost use Rattle.query_words.specs.Words.{parts_by};
ghost use Rattle.report_formats.specs.Rows.{format_named};
ghost use Rattle.c_library.specs.Words.{IsReportOf, benchmark_words, cube_words, lines_between, word_in};

use cube_model::Fault;
use query_words::{QueryWords, read_query};
use report_formats::{Asked, Format, Layout};
use std::alloc::{AllocError, Global};
use std::str;

/// The report of a query of the benchmark by its number, such as 1.1. `BadQuery` where there is none, and `Memory`.
pub fn asked_benchmark(alloc: Global, layout: Layout, number: &[u8]) -> Result<Asked, Fault>
    ensures ok { IfOk result (IsReportOf (benchmark_words number.now) layout) }
    ensures causes { IfErr result (λ fault. (fault ≡ Memory) ⊎ (fault ≡ BadQuery)) }
{
    let number = word(number)?;
    let words = QueryWords {
        q: number,
        set: None,
        by: None,
        agg: None,
        conditions: &[],
    };
    asked_in(alloc, layout, &words)
}

/// The report of a query by the name of its set, its columns, its aggregates, and its conditions, one a line.
/// `BadQuery` where they are none, and `Memory`.
pub fn asked_cube(
    alloc: Global,
    layout: Layout,
    set: &[u8],
    by: &[u8],
    agg: &[u8],
    conditions: &[u8],
) -> Result<Asked, Fault>
    ensures ok { IfOk result (IsReportOf (cube_words set.now by.now agg.now conditions.now) layout) }
    ensures causes { IfErr result (λ fault. (fault ≡ Memory) ⊎ (fault ≡ BadQuery)) }
{
    let set = word(set)?;
    let by = word(by)?;
    let agg = word(agg)?;
    let conditions = lines(alloc, conditions)?;
    let words = QueryWords {
        q: None,
        set,
        by,
        agg,
        conditions: conditions.as_slice(),
    };
    asked_in(alloc, layout, &words)
}

// The report of the query that words spell.
fn asked_in(alloc: Global, layout: Layout, words: &QueryWords<'_>) -> Result<Asked, Fault>
    ensures ok { IfOk result (IsReportOf (words_of words.now) layout) }
    ensures causes { IfErr result (λ fault. (fault ≡ Memory) ⊎ (fault ≡ BadQuery)) }
{
    match read_query(alloc, words) {
        Ok(query) => Asked::new(alloc, layout, query),
        Err(refused) => Err(Fault::from(refused)),
    }
}

/// The layout of a format by its name: bars, csv, tsv or json. Averages are fractions, and in json a sum and a count.
/// `BadQuery` where there is none.
pub fn layout_of(name: &[u8]) -> Result<Layout, Fault>
    ensures ok { IfOk result (λ layout. (format_named name.now ≡ Some layout.format) × (layout.decimals ≡ None)) }
    ensures causes { IfErr result (λ fault. fault ≡ BadQuery) }
{
    let Ok(name) = str::from_utf8(name) else {
        return Err(Fault::BadQuery);
    };
    match Format::named(name) {
        None => Err(Fault::BadQuery),
        Some(format) => Ok(Layout {
            format,
            decimals: None,
        }),
    }
}

// A word, unless it is empty.
fn word(bytes: &[u8]) -> Result<Option<&str>, Fault>
    ensures ok { IfOk result (λ found. option_map (λ word. word.now) found ≡ word_in bytes.now) }
    ensures causes { IfErr result (λ fault. fault ≡ BadQuery) }
{
    if bytes.is_empty() {
        return Ok(None);
    }
    match str::from_utf8(bytes) {
        Ok(text) => Ok(Some(text)),
        Err(_) => Err(Fault::BadQuery),
    }
}

// The words of a text, one a line, and none of an empty text.
fn lines(alloc: Global, bytes: &[u8]) -> Result<Vec<&str>, Fault>
    ensures ok { IfOk result (λ lines. map (λ line. line.now) lines.items ≡ lines_between bytes.now) }
    ensures causes { IfErr result (λ fault. (fault ≡ Memory) ⊎ (fault ≡ BadQuery)) }
{
    match word(bytes)? {
        None => Ok(Vec::new(alloc)),
        Some(text) => Ok(line_parts(alloc, text)?),
    }
}

// The parts of a text between line feeds.
fn line_parts(alloc: Global, text: &str) -> Result<Vec<&str>, AllocError>
    ensures { IfOk result (λ parts. map (λ part. part.now) parts.items ≡ parts_by 10 text.now) }
{
    text.split('\n').collect(alloc)
}
