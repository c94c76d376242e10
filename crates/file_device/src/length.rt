// What the length of a file says of it as a device.
ghost use Rattle.std.specs.Prelude.{◌≡◌, MatchResult};
ghost use Rattle.file_device.specs.Length.{IsDeviceLength, IsNoDeviceLength, IsToBeMade, IsNotToBeMade};

use cube_model::Fault;

/// The fewest sectors of a device.
const LEAST: u32 = 64;

/// Bytes in a sector.
pub(crate) const SECTOR: u64 = 512;

/// How many sectors a file of so many bytes has as a device: a whole number of them, from 64 to 4,294,967,295.
/// `DeviceSize` for each other length.
pub fn sectors_of(length: u64) -> Result<u32, Fault>
    ensures { MatchResult result (λ n. IsDeviceLength length n)
        (λ e. (e ≡ Fault.DeviceSize) × IsNoDeviceLength length) }
{
    if length % SECTOR != 0 {
        return Err(Fault::DeviceSize);
    }
    match u32::try_from(length / SECTOR) {
        Ok(sectors) if sectors >= LEAST => Ok(sectors),
        _ => Err(Fault::DeviceSize),
    }
}

/// Whether a file of so many bytes has to be given its length to be a device of so many sectors. `DeviceSize`
/// for fewer than 64 sectors, and for a file that is neither empty nor of just that length.
pub fn is_to_be_made(length: u64, sectors: u32) -> Result<bool, Fault>
    ensures { MatchResult result (λ b. IsToBeMade length sectors b)
        (λ e. (e ≡ Fault.DeviceSize) × IsNotToBeMade length sectors) }
{
    if sectors < LEAST {
        return Err(Fault::DeviceSize);
    }
    if length == 0 {
        return Ok(true);
    }
    if length != u64::from(sectors) * SECTOR {
        return Err(Fault::DeviceSize);
    }
    Ok(false)
}
