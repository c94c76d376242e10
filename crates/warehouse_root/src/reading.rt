//! Reading the parts of a root from the front of bytes.
ghost use Rattle.std.specs.Prelude.{◌≡◌, ◌⊎◌, ◌*◌, ◌≤◌, ◌<◌, ◌↔◌, length, IfErr, IfOk, IsErr, IsOkUnless, IsTrue};
ghost use Rattle.cube_model.specs.declared.fault.Fault.{Fault};
ghost use Rattle.warehouse_root.specs.Reading.{ArePartsOf, ReadsCounts, ReadsCuboid, ReadsCuboids, ReadsFront};
ghost use Rattle.warehouse_root.specs.Reading.{ReadsRows, ReadsTotals, SpellNoRoot};

use crate::cuboid::StoredCuboid;
use cube_model::{Fault, Totals};
use std::alloc::Global;
use wire::Cursor;

// The counts at the front of a root.
#[derive(Clone, Copy)]
pub(crate) struct Counts {
    pub(crate) batches: u32,
    pub(crate) target: u32,
    pub(crate) additions: u32,
    pub(crate) cuboids: u32,
}

impl Counts {
    ghost use Rattle.warehouse_root.specs.Reading.{AreCountsOf};

    // Whether a root with these counts has so many bytes.
    pub(crate) fn are_of(&self, bytes: usize) -> bool
        ensures { IsTrue result ↔ AreCountsOf bytes self.now }
    {
        bytes == 64 + 4 * self.batches as usize + 12 * self.cuboids as usize
    }
}

// The parts of a root, before any rule is looked at.
#[derive(Drop)]
pub(crate) struct Parts {
    pub(crate) counts: Counts,
    pub(crate) totals: Totals,
    pub(crate) batches: Vec<u32>,
    pub(crate) cuboids: Vec<StoredCuboid>,
}

// The parts that the bytes spell. `BadLayout` where they are not as many as their counts say.
pub(crate) fn read_parts(alloc: Global, bytes: &[u8]) -> Result<Parts, Fault>
    ensures ok { IfOk result
        (λ parts. ArePartsOf bytes.now parts.counts parts.totals parts.batches.items parts.cuboids.items) }
    ensures refused { IfErr result
        (λ fault. (fault ≡ Fault.Memory) ⊎ ((fault ≡ Fault.BadLayout) × SpellNoRoot bytes.now)) }
{
    let mut cursor = Cursor::new(bytes);
    let (counts, totals) = read_front(&mut cursor)?;
    let batches = read_rows(alloc, &mut cursor, counts.batches as usize)?;
    let cuboids = read_cuboids(alloc, &mut cursor, counts.cuboids as usize)?;
    Ok(Parts {
        counts,
        totals,
        batches,
        cuboids,
    })
}

// The counts and the totals at the front of bytes that are as many as the counts say.
fn read_front(cursor: &mut Cursor<'_>) -> Result<(Counts, Totals), Fault>
    ensures ok { IfOk result (λ front. ReadsFront cursor.old cursor.new front.0 front.1) }
    ensures refused { IfErr result (λ fault. (fault ≡ Fault.BadLayout) × SpellNoRoot cursor.old) }
{
    let bytes = cursor.len();
    let counts = read_counts(cursor)?;
    if !counts.are_of(bytes) {
        return Err(Fault::BadLayout);
    }
    let totals = read_totals(cursor)?;
    Ok((counts, totals))
}

// The counts at the front of bytes.
fn read_counts(cursor: &mut Cursor<'_>) -> Result<Counts, Fault>
    ensures ok { IfOk result (ReadsCounts cursor.old cursor.new) }
    ensures short { IsErr result ↔ (length cursor.old < 16) }
    ensures fault { IsOkUnless result Fault.BadLayout }
{
    Ok(Counts {
        batches: cursor.u32()?,
        target: cursor.u32()?,
        additions: cursor.u32()?,
        cuboids: cursor.u32()?,
    })
}

// The totals at the front of bytes.
fn read_totals(cursor: &mut Cursor<'_>) -> Result<Totals, Fault>
    ensures ok { IfOk result (ReadsTotals cursor.old cursor.new) }
    ensures short { IsErr result ↔ (length cursor.old < 48) }
    ensures fault { IsOkUnless result Fault.BadLayout }
{
    Ok(Totals {
        quantity: cursor.u64()?,
        extendedprice: cursor.u64()?,
        revenue: cursor.u64()?,
        supplycost: cursor.u64()?,
        discounted: cursor.u64()?,
        profit: cursor.u64()?,
    })
}

// The rows of so many batches at the front of bytes.
fn read_rows(alloc: Global, cursor: &mut Cursor<'_>, count: usize) -> Result<Vec<u32>, Fault>
    requires { 4 * count ≤ length cursor.old }
    ensures ok { IfOk result (λ batches. ReadsRows count cursor.old cursor.new batches.items) }
    ensures memory { IsOkUnless result Fault.Memory }
{
    let mut batches = Vec::with_capacity(alloc, count)?;
    for _ in 0..count {
        let rows = cursor.u32()?;
        batches.push(rows)?;
    }
    Ok(batches)
}

// So many cuboids at the front of bytes.
fn read_cuboids(
    alloc: Global,
    cursor: &mut Cursor<'_>,
    count: usize,
) -> Result<Vec<StoredCuboid>, Fault>
    requires { 12 * count ≤ length cursor.old }
    ensures ok { IfOk result (λ cuboids. ReadsCuboids count cursor.old cursor.new cuboids.items) }
    ensures memory { IsOkUnless result Fault.Memory }
{
    let mut cuboids = Vec::with_capacity(alloc, count)?;
    for _ in 0..count {
        let cuboid = read_cuboid(cursor)?;
        cuboids.push(cuboid)?;
    }
    Ok(cuboids)
}

// The cuboid at the front of bytes.
fn read_cuboid(cursor: &mut Cursor<'_>) -> Result<StoredCuboid, Fault>
    ensures ok { IfOk result (ReadsCuboid cursor.old cursor.new) }
    ensures short { IsErr result ↔ (length cursor.old < 12) }
{
    Ok(StoredCuboid {
        view: cursor.u16()?,
        runs: cursor.u16()?,
        mark: cursor.u32()?,
        cells: cursor.u32()?,
    })
}
