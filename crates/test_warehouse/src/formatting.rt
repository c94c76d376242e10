//! Devices on which nothing can be made or opened, and the last generation.
use crate::hostile::reopened;
use crate::steps::{Step, take};
use cube_model::Fault;
use sample_sessions::{Change, sample_dims, status};
use sample_star::FACTS;
use sector_device::MemDisk;
use std::alloc::Global;
use warehouse::{Session, Status, create, open};

/// How a creation or an opening ended, and the disk then.
fn ended(made: Result<Session<MemDisk>, (Fault, MemDisk)>) -> (Option<Fault>, MemDisk) {
    match made {
        Ok(session) => (None, session.close()),
        Err((fault, disk)) => (Some(fault), disk),
    }
}

/// How an opening of a new disk of so many sectors ends, a creation on it, another creation, and another opening.
fn outcomes(alloc: Global, sectors: u32) -> Result<[Option<Fault>; 4], Fault> {
    let (found, disk) = ended(open(alloc, MemDisk::new(alloc, sectors)?));
    let (made, disk) = ended(create(alloc, disk, sample_dims(alloc)?));
    let (made_again, disk) = ended(create(alloc, disk, sample_dims(alloc)?));
    let (found_again, _) = ended(open(alloc, disk));
    Ok([found, made, made_again, found_again])
}

#[test]
fn a_warehouse_is_made_once_on_at_least_64_sectors(rt: HostRuntime) {
    assert!(rt; outcomes(rt.alloc(), 63) == Ok([Some(Fault::DeviceSize); 4]));
    assert!(rt;
        outcomes(rt.alloc(), 64)
            == Ok([
                Some(Fault::NotFormatted),
                None,
                Some(Fault::AlreadyFormatted),
                None
            ])
    );
}

const SAMPLE: Step = Step::Batch(&FACTS);

/// The greatest generation, which is odd.
const LAST: Change = (1, 16, b"\xff\xff\xff\xff\xff\xff\xff\xff");

/// How a warehouse at that generation refuses a batch, if it does, and its status then.
fn worn(alloc: Global) -> Result<(Option<Fault>, Status), Fault> {
    let mut session = reopened(alloc, &[], LAST)?;
    let refused = take(alloc, &mut session, &SAMPLE).err();
    Ok((refused, session.status()?))
}

#[test]
fn the_last_generation_takes_no_batch(rt: HostRuntime) {
    let last = Status {
        generation: 18_446_744_073_709_551_615,
        ..status(0, 0)
    };
    assert!(rt; worn(rt.alloc()) == Ok((Some(Fault::Worn), last)));
}
