//! A new warehouse in the bytes of a file.
ghost use Rattle.std.specs.Prelude.{◌≡◌, IfErr, IfOk};
ghost use Rattle.c_library.specs.Creating.{CreateRefuses, Creates, IsCreateJournal, RefusesCreate};
ghost use Rattle.c_library.specs.Journals.{AreCallsWithin};

use crate::naming::named;
use cube_model::Fault;
use dimension_tables::read_dimensions;
use dimensions::Dims;
use journal_device::{Call, JournalDisk, Origin, journal_of};
use std::alloc::Global;
use std::marker::Brand;

/// The journal that makes a warehouse without batches of the bytes of a file without one, such as a new file of zeros:
/// the calls that the file is to be given, in order. Its dimensions are the rows of four tables.
///
/// `DeviceSize` where the bytes are no whole number of sectors, fewer than 64 sectors, or 2^32 or more;
/// `AlreadyFormatted` where they have a valid superblock; `Full` where the dimensions do not fit; the refusals of the
/// tables; and `Memory`, also where there is none for the journal.
pub fn create(
    alloc: Global,
    image: &[u8],
    customer: &[u8],
    supplier: &[u8],
    part: &[u8],
    date: &[u8],
) -> Result<Vec<u8>, Fault>
    ensures creates { IfOk result
        (λ journal. IsCreateJournal image.now customer.now supplier.now part.now date.now journal.items) }
    ensures refused { IfErr result (RefusesCreate image.now customer.now supplier.now part.now date.now) }
{
    let dims = read_dimensions(alloc, customer, supplier, part, date)?;
    let calls = create_over::<Brand>(alloc, image, dims)?;
    journal_of(alloc, calls.as_slice())
}

// The calls that make the warehouse.
fn create_over<O: Origin>(alloc: Global, image: &[u8], dims: Dims) -> Result<Vec<Call>, Fault>
    requires origin { image.now ≡ O.image }
    ensures creates { IfOk result (λ calls. AreCallsWithin O.image (Creates O.image dims) calls.items) }
    ensures refused { IfErr result (CreateRefuses O.image dims) }
{
    let Some(device) = JournalDisk::<O>::over(alloc, image) else {
        return Err(Fault::DeviceSize);
    };
    match warehouse::create(alloc, device, dims) {
        Ok(session) => Ok(session.close().into_calls()),
        Err((fault, _)) => Err(named(fault)),
    }
}
