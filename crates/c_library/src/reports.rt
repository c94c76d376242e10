//! Reports over the bytes of a file.
ghost use Rattle.std.specs.Prelude.{◌≡◌, ◌≤ℤ◌, ◌^◌, pos, IfErr, IfOk};
ghost use Rattle.cube_model.specs.declared.fault.Fault.TheVariants.{NoSuchPrefix};
ghost use Rattle.c_library.specs.Handing.{Hands};
ghost use Rattle.c_library.specs.Reports.{RefusesReport, IsReportFor, prefix_of};
ghost use Rattle.c_library.specs.Words.{benchmark_words, cube_words};

use crate::answering::answer;
use crate::asking::{asked_benchmark, asked_cube, layout_of};
use crate::handing::{number_of, put};
use cube_model::Fault;
use std::alloc::Global;

/// The report of a query of the benchmark, by its number such as 1.1, over so many batches, or over all where `as_of`
/// is below 0. The format is bars, csv, tsv or json.
///
/// The answer is the length of the text in bytes, or the number of a fault with a minus. Where `out` is shorter than
/// the text, or at a fault, nothing is put in it.
#[unsafe(no_mangle)]
pub extern "C" fn ssbcube_report(
    alloc: Global,
    image: &[u8],
    number: &[u8],
    as_of: i64,
    format: &[u8],
    out: &mut [u8],
) -> i64
    ensures { Hands (IsReportFor image.now (benchmark_words number.now) format.now as_of)
        (RefusesReport image.now (benchmark_words number.now) format.now as_of) out.old out.new result }
{
    match benchmark_report(alloc, image, number, as_of, format) {
        Ok(text) => put(text.as_slice(), out),
        Err(fault) => number_of(fault),
    }
}

/// The report of a query by the name of its set (plain, rollup or cube), its columns, its aggregates, and its
/// conditions, one a line. What is empty was left out. The rest is as in `ssbcube_report`.
#[unsafe(no_mangle)]
pub extern "C" fn ssbcube_cube(
    alloc: Global,
    image: &[u8],
    set: &[u8],
    by: &[u8],
    agg: &[u8],
    conditions: &[u8],
    as_of: i64,
    format: &[u8],
    out: &mut [u8],
) -> i64
    ensures { Hands (IsReportFor image.now (cube_words set.now by.now agg.now conditions.now) format.now as_of)
        (RefusesReport image.now (cube_words set.now by.now agg.now conditions.now) format.now as_of) out.old out.new
        result }
{
    match cube_report(alloc, image, (set, by, agg, conditions), as_of, format) {
        Ok(text) => put(text.as_slice(), out),
        Err(fault) => number_of(fault),
    }
}

// The report of a query of the benchmark.
fn benchmark_report(
    alloc: Global,
    image: &[u8],
    number: &[u8],
    as_of: i64,
    format: &[u8],
) -> Result<Vec<u8>, Fault>
    ensures ok { IfOk result (λ text. IsReportFor image.now (benchmark_words number.now) format.now as_of text.items) }
    ensures refused { IfErr result (RefusesReport image.now (benchmark_words number.now) format.now as_of) }
{
    let prefix = prefix(as_of)?;
    let layout = layout_of(format)?;
    let asked = asked_benchmark(alloc, layout, number)?;
    answer(alloc, image, prefix, &asked)
}

// The report of a cube query, by its set, its columns, its aggregates and its conditions.
fn cube_report(
    alloc: Global,
    image: &[u8],
    words: (&[u8], &[u8], &[u8], &[u8]),
    as_of: i64,
    format: &[u8],
) -> Result<Vec<u8>, Fault>
    ensures ok { IfOk result
        (λ text. IsReportFor image.now
        (cube_words words.entry.0.now words.entry.1.now words.entry.2.now words.entry.3.now)
        format.now as_of text.items) }
    ensures refused { IfErr result
        (RefusesReport image.now (cube_words words.entry.0.now words.entry.1.now words.entry.2.now words.entry.3.now)
        format.now as_of) }
{
    let prefix = prefix(as_of)?;
    let layout = layout_of(format)?;
    let (set, by, agg, conditions) = words;
    let asked = asked_cube(alloc, layout, set, by, agg, conditions)?;
    answer(alloc, image, prefix, &asked)
}

// Over how many batches, or over all below 0. `NoSuchPrefix` for 2^32 batches and more.
fn prefix(as_of: i64) -> Result<Option<u32>, Fault>
    ensures ok { IfOk result (λ found. found ≡ prefix_of as_of) }
    ensures refused { IfErr result (λ fault. (fault ≡ NoSuchPrefix) × (pos (2 ^ 32) ≤ℤ as_of)) }
{
    if as_of < 0 {
        return Ok(None);
    }
    match u32::try_from(as_of) {
        Ok(as_of) => Ok(Some(as_of)),
        Err(_) => Err(Fault::NoSuchPrefix),
    }
}
