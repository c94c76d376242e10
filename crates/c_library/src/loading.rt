//! Fact rows loaded into the warehouse in the bytes of a file.
ghost use Rattle.std.specs.Prelude.{◌≡◌, None, IfErr, IfOk};
ghost use Rattle.object_store.specs.Disk.{disk, AllShow};
ghost use Rattle.warehouse_objects.specs.Facts.{Facts};
ghost use Rattle.warehouse.specs.Found.{MayRepresent};
ghost use Rattle.c_library.specs.Images.{HoldsWarehouse};
ghost use Rattle.c_library.specs.Journals.{AreCallsWithin};
ghost use Rattle.c_library.specs.Loading.{IsLoadJournal, LoadRefuses, LoadsImage, LoadsOn, RefusesLoad};

use crate::naming::named;
use cube_model::Fault;
use journal_device::{Call, JournalDisk, Origin, journal_of};
use sector_device::Sectors;
use std::alloc::Global;
use std::marker::Brand;
use warehouse::open;
use warehouse_jobs::laws::load_holds_its_batches;
use warehouse_jobs::{BatchNumber, BatchRows, Job, perform};

/// The journal that loads fact rows into the warehouse that the bytes of a file hold: the calls that the file is to be
/// given, in order. The batches have so many rows, the last one maybe fewer, and the first of them has a number. One
/// that is there already is passed over where it has exactly these rows. An upkeep that was cut off is finished first.
///
/// `DeviceSize` where the bytes are no whole number of sectors; the causes of an opening where they hold no warehouse;
/// the refusal of the first line or batch that has one; and `Memory`, also where there is none for the journal. The
/// journal is that of all batches, or there is none.
pub fn load(
    alloc: Global,
    image: &[u8],
    first: BatchNumber,
    rows: BatchRows,
    lineorder: &[u8],
) -> Result<Vec<u8>, Fault>
    ensures loads { IfOk result (λ journal. IsLoadJournal image.now first rows lineorder.now journal.items) }
    ensures refused { IfErr result (RefusesLoad image.now first rows lineorder.now) }
{
    let calls = load_over::<Brand>(alloc, image, first, rows, lineorder)?;
    journal_of(alloc, calls.as_slice())
}

// The calls that load the rows.
fn load_over<O: Origin>(
    alloc: Global,
    image: &[u8],
    first: BatchNumber,
    rows: BatchRows,
    lineorder: &[u8],
) -> Result<Vec<Call>, Fault>
    requires origin { image.now ≡ O.image }
    ensures loads { IfOk result
        (λ calls. AreCallsWithin O.image (λ done. (facts : Facts) → HoldsWarehouse O.image facts
        → LoadsImage O.image facts first rows lineorder.now done) calls.items) }
    ensures refused { IfErr result (RefusesLoad O.image first rows lineorder.now) }
{
    let Some(device) = JournalDisk::<O>::over(alloc, image) else {
        return Err(Fault::DeviceSize);
    };
    match load_on(alloc, device, first, rows, lineorder) {
        Ok(device) => Ok(device.into_calls()),
        Err(fault) => Err(fault),
    }
}

// Loads the rows into the warehouse on a device, and hands the device back.
fn load_on<D: Sectors + Drop>(
    alloc: Global,
    device: D,
    first: BatchNumber,
    rows: BatchRows,
    lineorder: &[u8],
) -> Result<D, Fault>
    ensures loads { IfOk result (λ new. ((d : D) → D.keeps_word d) → (facts : Facts)
        → AllShow (disk D.Sectors device) (MayRepresent facts None)
        → LoadsOn D.Sectors facts first rows lineorder.now device new) }
    ensures refused { IfErr result (λ fault. ((d : D) → D.keeps_word d) → (facts : Facts)
        → AllShow (disk D.Sectors device) (MayRepresent facts None)
        → LoadRefuses facts first rows lineorder.now fault) }
{
    load_holds_its_batches::<D, bool>();
    let mut session = match open(alloc, device) {
        Ok(session) => session,
        Err((fault, _)) => return Err(named(fault)),
    };
    let mut lines = Vec::new(alloc);
    match perform(
        alloc,
        &mut session,
        Job::Load { first, rows },
        lineorder,
        &mut lines,
    ) {
        Ok(_) => Ok(session.close()),
        Err(fault) => Err(named(fault)),
    }
}
