//! The journals of changes, for C.
ghost use Rattle.std.specs.Prelude.{IfErr, IfOk};
ghost use Rattle.c_library.specs.Changes.{RefusesChange};
ghost use Rattle.c_library.specs.Handing.{HandsSaying};
ghost use Rattle.c_library.specs.Creating.{IsCreateJournal, RefusesCreate};
ghost use Rattle.c_library.specs.Loading.{IsLoadJournal};

use crate::creating::create;
use crate::handing::{put, refuse};
use crate::loading::load;
use cube_model::Fault;
use std::alloc::Global;
use warehouse_jobs::{BatchNumber, BatchRows};

/// The journal that makes a warehouse without batches of the bytes of a file, such as those of a new file of zeros. The
/// dimensions are the rows of four tables, in the lines of the benchmark.
///
/// The answer is the length of the journal in bytes, or the number of a fault with a minus. Where `out` is shorter than
/// the journal, or at a fault, nothing is put in it. At a fault `message` gets the line that the program prints of it,
/// cut to its length, and a zero byte.
#[unsafe(no_mangle)]
pub extern "C" fn ssbcube_create(
    alloc: Global,
    image: &[u8],
    customer: &[u8],
    supplier: &[u8],
    part: &[u8],
    date: &[u8],
    out: &mut [u8],
    message: &mut [u8],
) -> i64
    ensures { HandsSaying (IsCreateJournal image.now customer.now supplier.now part.now date.now)
        (RefusesCreate image.now customer.now supplier.now part.now date.now) out.old out.new message.old message.new
        result }
{
    match create(alloc, image, customer, supplier, part, date) {
        Ok(journal) => put(journal.as_slice(), out),
        Err(fault) => refuse(alloc, fault, message),
    }
}

/// The journal that loads fact rows into the warehouse that the bytes of a file hold, in batches of so many rows, 1 to
/// 65,536, the first of them with a number, from 1. `BadQuery` for other numbers. The rest is as in `ssbcube_create`.
#[unsafe(no_mangle)]
pub extern "C" fn ssbcube_load(
    alloc: Global,
    image: &[u8],
    first: u32,
    rows: u32,
    lineorder: &[u8],
    out: &mut [u8],
    message: &mut [u8],
) -> i64
    ensures { HandsSaying (IsLoadJournal image.now first rows lineorder.now)
        (RefusesChange image.now first rows lineorder.now) out.old out.new message.old message.new result }
{
    match load_rows(alloc, image, first, rows, lineorder) {
        Ok(journal) => put(journal.as_slice(), out),
        Err(fault) => refuse(alloc, fault, message),
    }
}

// The journal of a load, where the numbers are those of batches.
fn load_rows(
    alloc: Global,
    image: &[u8],
    first: u32,
    rows: u32,
    lineorder: &[u8],
) -> Result<Vec<u8>, Fault>
    ensures loads { IfOk result (λ journal. IsLoadJournal image.now first rows lineorder.now journal.items) }
    ensures refused { IfErr result (RefusesChange image.now first rows lineorder.now) }
{
    let Some(number) = BatchNumber::new(first) else {
        return Err(Fault::BadQuery);
    };
    let Some(size) = BatchRows::new(rows as usize) else {
        return Err(Fault::BadQuery);
    };
    load(alloc, image, number, size, lineorder)
}
