// An object in whole sectors.
ghost use Rattle.std.specs.Prelude.{◌≡◌, ◌*◌, ◌/◌, ◌<◌, ◌≤◌, ◌^◌, length, OnOk};
ghost use Rattle.sector_device.specs.Device.{CountsFailure};
ghost use Rattle.extents.specs.Extents.{Holds, IsInRange};
ghost use Rattle.object_store.specs.Blocks.{padded};
ghost use Rattle.object_store.specs.DeviceCalls.{WritesDevice};
ghost use Rattle.object_store.specs.Places.{bytes_at, extent_of};

use sector_device::{DeviceError, Sectors};

/// Writes an object from this sector on.
pub(crate) fn write_extent<D: Sectors>(
    device: &mut D,
    first: u32,
    bytes: &[u8],
) -> Result<(), DeviceError>
    requires in_range { IsInRange (D.state device.old).size (extent_of first (length bytes.now)) }
    requires few { (D.state device.old).size < 2 ^ 32 }
    ensures failures { CountsFailure result (D.failed device.old) (D.failed device.new) }
    ensures writes { WritesDevice D.Sectors (Holds (extent_of first (length bytes.now))) device.old device.new }
    ensures written { OnOk result (D.keeps_word device.new
        → bytes_at (D.state device.new).reads first (length bytes.now) ≡ bytes.now) }
{
    let (whole, rest) = bytes.split_at(bytes.len() / 512 * 512);
    device.write_run(first, whole)?;
    if rest.is_empty() {
        return Ok(());
    }
    device.write(first + (whole.len() / 512) as u32, &block(rest))
}

// A sector of these bytes and then zeros.
fn block(rest: &[u8]) -> [u8; 512]
    requires { length rest.now ≤ 512 }
    ensures { result ≡ padded rest.now }
{
    let mut block = [0; 512];
    block[..rest.len()].copy_from_slice(rest);
    block
}
