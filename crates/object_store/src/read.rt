// Reading bytes that begin at a sector.
ghost use Rattle.std.specs.Prelude.{◌≡◌, ◌+◌, ◌-◌, ◌*◌, ◌/◌, ◌%◌, ◌<◌, ◌≤◌, ◌^◌, ◌++◌, ℕ, length, take, drop, min};
ghost use Rattle.std.specs.Prelude.{IfOk, OnOk};
ghost use Rattle.std.specs.Vec.{vec_capacity};
ghost use Rattle.sector_device.specs.Device.{CountsFailure};
ghost use Rattle.superblock.specs.Superblock.{sectors_of};
ghost use Rattle.object_store.specs.Places.{bytes_at, sectors_bytes};
ghost use Rattle.object_store.specs.DeviceCalls.{ReadsDevice};

use sector_device::{DeviceError, Sectors};

/// Reads the bytes from a place on, of those that begin with a sector. It reads the sectors that they lie in.
pub(crate) fn read_range<D: Sectors>(
    device: &mut D,
    first: u32,
    at: u64,
    to: &mut [u8],
) -> Result<(), DeviceError>
    requires in_range { first + sectors_of (at + length to.old) ≤ (D.state device.old).size }
    requires few { (D.state device.old).size < 2 ^ 32 }
    ensures reads { ReadsDevice D.Sectors device.old device.new }
    ensures failures { CountsFailure result (D.failed device.old) (D.failed device.new) }
    ensures bytes { OnOk result (D.keeps_word device.new → (total : ℕ) → at + length to.old ≤ total
        → to.new ≡ take (length to.old) (drop at (bytes_at (D.state device.old).reads first total))) }
{
    let mut done: usize = 0;
    while done < to.len() {
        done += read_some(device, first, at + done as u64, &mut to[done..])?;
    }
    Ok(())
}

// Reads from a place on: whole sectors where one begins there, or up to the end of the sector. It answers how many
// bytes.
fn read_some<D: Sectors>(
    device: &mut D,
    first: u32,
    place: u64,
    to: &mut [u8],
) -> Result<usize, DeviceError>
    requires some { 0 < length to.old }
    requires in_range { first + sectors_of (place + length to.old) ≤ (D.state device.old).size }
    requires few { (D.state device.old).size < 2 ^ 32 }
    ensures reads { ReadsDevice D.Sectors device.old device.new }
    ensures failures { CountsFailure result (D.failed device.old) (D.failed device.new) }
    ensures many { IfOk result (λ n. (0 < n) × (n ≤ length to.old)) }
    ensures bytes { IfOk result (λ n. D.keeps_word device.new → (total : ℕ) → place + length to.old ≤ total
        → to.new ≡ take n (drop place (bytes_at (D.state device.old).reads first total)) ++ drop n to.old) }
{
    if place % 512 == 0 && to.len() >= 512 {
        return read_whole(device, first + (place / 512) as u32, to);
    }
    read_piece(device, first, place, to)
}

// Reads whole sectors, from a first one on, as many as there is room for. It answers how many bytes.
fn read_whole<D: Sectors>(device: &mut D, first: u32, to: &mut [u8]) -> Result<usize, DeviceError>
    requires in_range { first + length to.old / 512 ≤ (D.state device.old).size }
    requires few { (D.state device.old).size < 2 ^ 32 }
    ensures reads { ReadsDevice D.Sectors device.old device.new }
    ensures failures { CountsFailure result (D.failed device.old) (D.failed device.new) }
    ensures many { IfOk result (λ n. n ≡ length to.old / 512 * 512) }
    ensures bytes { IfOk result (λ n. D.keeps_word device.new
        → to.new ≡ sectors_bytes (D.state device.old).reads first (length to.old / 512) ++ drop n to.old) }
{
    let n = to.len() / 512 * 512;
    device.read_run(first, &mut to[..n])?;
    Ok(n)
}

// Reads from a place on, up to the end of its sector. It answers how many bytes.
fn read_piece<D: Sectors>(
    device: &mut D,
    first: u32,
    place: u64,
    to: &mut [u8],
) -> Result<usize, DeviceError>
    requires in_range { first + place / 512 < (D.state device.old).size }
    requires few { (D.state device.old).size < 2 ^ 32 }
    ensures reads { ReadsDevice D.Sectors device.old device.new }
    ensures failures { CountsFailure result (D.failed device.old) (D.failed device.new) }
    ensures many { IfOk result (λ n. n ≡ min (length to.old) (512 - place % 512)) }
    ensures bytes { IfOk result (λ n. D.keeps_word device.new
        → to.new ≡ take n (drop (place % 512) ((D.state device.old).reads (first + place / 512))) ++ drop n to.old) }
{
    let mut block = [0; 512];
    device.read(first + (place / 512) as u32, &mut block)?;
    let from = (place % 512) as usize;
    let n = to.len().min(512 - from);
    to[..n].copy_from_slice(&block[from..from + n]);
    Ok(n)
}

/// Puts the bytes of so many sectors, from one on, after others. There is to be room for them.
pub(crate) fn push_sectors<D: Sectors>(
    device: &mut D,
    first: u32,
    n: u32,
    to: &mut Vec<u8>,
) -> Result<(), DeviceError>
    requires in_range { first + n ≤ (D.state device.old).size }
    requires few { (D.state device.old).size < 2 ^ 32 }
    requires room { length to.old.items + n * 512 ≤ vec_capacity to.old }
    ensures reads { ReadsDevice D.Sectors device.old device.new }
    ensures failures { CountsFailure result (D.failed device.old) (D.failed device.new) }
    ensures bytes { OnOk result (D.keeps_word device.new
        → to.new.items ≡ to.old.items ++ sectors_bytes (D.state device.old).reads first n) }
{
    let at = to.len();
    to.resize(at + n as usize * 512, 0).unwrap();
    device.read_run(first, &mut to[at..])
}
