// Sectors that are filled with one byte.
use sector_device::{DeviceError, Sectors};

/// Fills a sector with a byte.
pub(crate) fn put<D: Sectors>(disk: &mut D, i: u32, byte: u8) -> Result<(), DeviceError> {
    if i >= disk.count() {
        return Err(DeviceError);
    }
    disk.write(i, &[byte; 512])
}

/// The byte of which a sector consists, or none where it has several.
pub(crate) fn get<D: Sectors>(disk: &mut D, i: u32) -> Result<Option<u8>, DeviceError> {
    if i >= disk.count() {
        return Err(DeviceError);
    }
    let mut sector = [0; 512];
    disk.read(i, &mut sector)?;
    Ok(only(&sector))
}

// The byte that all of a sector are, if they are one.
fn only(sector: &[u8; 512]) -> Option<u8> {
    let byte = sector[0];
    if *sector == [byte; 512] {
        Some(byte)
    } else {
        None
    }
}

/// Fills four neighbouring sectors, the first of them at a number, with a byte each, at once.
pub(crate) fn put_four<D: Sectors>(
    disk: &mut D,
    first: u32,
    bytes: [u8; 4],
) -> Result<(), DeviceError> {
    if disk.count() < 4 || first > disk.count() - 4 {
        return Err(DeviceError);
    }
    let sectors = [
        [bytes[0]; 512],
        [bytes[1]; 512],
        [bytes[2]; 512],
        [bytes[3]; 512],
    ];
    disk.write_run(first, sectors.as_flattened())
}

/// The byte of which each of four neighbouring sectors consists, read at once.
pub(crate) fn get_four<D: Sectors>(
    disk: &mut D,
    first: u32,
) -> Result<[Option<u8>; 4], DeviceError> {
    if disk.count() < 4 || first > disk.count() - 4 {
        return Err(DeviceError);
    }
    let mut sectors = [[0; 512]; 4];
    disk.read_run(first, sectors.as_flattened_mut())?;
    Ok(sectors.map(|sector| only(&sector)))
}

/// The same, read one by one.
pub(crate) fn get_each<D: Sectors>(
    disk: &mut D,
    first: u32,
) -> Result<[Option<u8>; 4], DeviceError> {
    let mut found = [None; 4];
    for (byte, i) in found.iter_mut().zip(first..u32::MAX) {
        *byte = get(disk, i)?;
    }
    Ok(found)
}
