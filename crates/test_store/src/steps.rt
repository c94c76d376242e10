// One object that is put, and what is read of it.
ghost use Rattle.std.specs.Prelude.{◌<◌};

use cube_model::Fault;
use object_store::Store;
use sector_device::{MemDisk, Sectors};
use std::alloc::Global;

/// A store with one object, on any device.
pub(crate) fn make<D: Sectors>(
    alloc: Global,
    device: D,
    id: u32,
    bytes: &[u8],
) -> Result<Store<D>, (Fault, D)> {
    if bytes.len() < 1 {
        return Err((Fault::BadLayout, device));
    }
    if bytes.len() > 1_000_000 {
        return Err((Fault::BadLayout, device));
    }
    Store::create(alloc, device, &[(id, bytes)], &[], 1)
}

/// Puts one object.
pub(crate) fn put<D: Sectors>(
    alloc: Global,
    store: &mut Store<D>,
    id: u32,
    bytes: &[u8],
) -> Result<(), Fault> {
    if bytes.len() < 1 {
        return Err(Fault::BadLayout);
    }
    if bytes.len() > 1_000_000 {
        return Err(Fault::BadLayout);
    }
    if store.objects() >= 65_536 {
        return Err(Fault::BadLayout);
    }
    store.commit(alloc, &[(id, bytes)], &[], &[], 1)
}

/// A store with one object, on a memory disk.
pub(crate) fn made(
    alloc: Global,
    sectors: u32,
    id: u32,
    bytes: &[u8],
) -> Result<Store<MemDisk>, Fault> {
    let disk = MemDisk::new(alloc, sectors)?;
    match make(alloc, disk, id, bytes) {
        Ok(store) => Ok(store),
        Err((fault, _)) => Err(fault),
    }
}

/// The store on a disk.
pub(crate) fn opened<D: Sectors + Drop>(alloc: Global, device: D) -> Result<Store<D>, Fault> {
    match Store::open(alloc, device) {
        Ok(store) => Ok(store),
        Err((fault, _)) => Err(fault),
    }
}

/// Object 1 of a store, if it has five bytes.
pub(crate) fn five<D: Sectors>(store: &mut Store<D>) -> Result<Option<[u8; 5]>, Fault> {
    let mut bytes = [0; 5];
    if store.size(1) == Some(5) && store.read_at(1, 0, &mut bytes)? {
        Ok(Some(bytes))
    } else {
        Ok(None)
    }
}
