// The device calls of a commit and of a creation.
ghost use Rattle.std.specs.Prelude.{◌≡◌, ◌/◌, ◌<◌, ◌≤◌, ◌^◌, length, OnOk};
ghost use Rattle.sector_device.specs.Device.{CountsFailure, IsSettled, LeavesOnly};
ghost use Rattle.extents.specs.Extents.{SomeHolds, AreLaidOut};
ghost use Rattle.object_store.specs.Commit.{puts_of};
ghost use Rattle.object_store.specs.DeviceCalls.{WritesDevice};
ghost use Rattle.object_store.specs.Places.{bytes_at, extents_of, objects_at};
ghost use Rattle.object_store.specs.Publish.{AreFor, written_by, HasWritten, IsEither};

use crate::catalogue::Entry;
use crate::extent::write_extent;
use crate::staged::Staged;
use sector_device::{DeviceError, Sectors};
use superblock::encode;

/// Writes what is staged, then its superblock, with a sync after each.
pub(crate) fn publish<D: Sectors>(
    device: &mut D,
    puts: &[(u32, &[u8])],
    staged: &Staged,
) -> Result<(), DeviceError>
    requires places { AreFor staged.now.placed.items (puts_of puts.now) }
    requires bytes { staged.now.superblock.bytes ≡ length staged.now.catalogue.items }
    requires laid_out { AreLaidOut (D.state device.old).size (written_by staged.now) }
    requires least { 2 ≤ (D.state device.old).size }
    requires few { (D.state device.old).size < 2 ^ 32 }
    requires settled { D.keeps_word device.old → IsSettled (D.state device.old) }
    ensures size { (D.state device.new).size ≡ (D.state device.old).size }
    ensures failures { CountsFailure result (D.failed device.old) (D.failed device.new) }
    ensures word { D.keeps_word device.new → D.keeps_word device.old }
    ensures settled { OnOk result (D.keeps_word device.new → IsSettled (D.state device.new)) }
    ensures written { OnOk result (D.keeps_word device.new
        → HasWritten staged.now (puts_of puts.now) (D.state device.old).reads (D.state device.new).reads) }
    ensures moments { D.keeps_word device.new
        → LeavesOnly (D.state device.old) (D.state device.new)
        (IsEither staged.now (puts_of puts.now) (D.state device.old).reads) }
{
    write_texts(device, puts, staged)?;
    device.sync()?;
    device.write(
        (staged.superblock.generation % 2) as u32,
        &encode(&staged.superblock),
    )?;
    device.sync()
}

// Writes the objects and the catalogue.
fn write_texts<D: Sectors>(
    device: &mut D,
    puts: &[(u32, &[u8])],
    staged: &Staged,
) -> Result<(), DeviceError>
    requires places { AreFor staged.now.placed.items (puts_of puts.now) }
    requires bytes { staged.now.superblock.bytes ≡ length staged.now.catalogue.items }
    requires laid_out { AreLaidOut (D.state device.old).size (written_by staged.now) }
    requires few { (D.state device.old).size < 2 ^ 32 }
    ensures failures { CountsFailure result (D.failed device.old) (D.failed device.new) }
    ensures writes { WritesDevice D.Sectors (SomeHolds (written_by staged.now)) device.old device.new }
    ensures objects { OnOk result (D.keeps_word device.new
        → objects_at (D.state device.new).reads staged.now.placed.items ≡ puts_of puts.now) }
    ensures catalogue { OnOk result (D.keeps_word device.new
        → bytes_at (D.state device.new).reads staged.now.superblock.catalogue staged.now.superblock.bytes
        ≡ staged.now.catalogue.items) }
{
    write_objects(device, puts, &staged.placed)?;
    write_extent(device, staged.superblock.catalogue, &staged.catalogue)
}

// Writes each object to its place.
fn write_objects<D: Sectors>(
    device: &mut D,
    puts: &[(u32, &[u8])],
    placed: &[Entry],
) -> Result<(), DeviceError>
    requires places { AreFor placed.now (puts_of puts.now) }
    requires laid_out { AreLaidOut (D.state device.old).size (extents_of placed.now) }
    requires few { (D.state device.old).size < 2 ^ 32 }
    ensures failures { CountsFailure result (D.failed device.old) (D.failed device.new) }
    ensures writes { WritesDevice D.Sectors (SomeHolds (extents_of placed.now)) device.old device.new }
    ensures objects { OnOk result (D.keeps_word device.new
        → objects_at (D.state device.new).reads placed.now ≡ puts_of puts.now) }
{
    for k in 0..placed.len() {
        write_extent(device, placed[k].first, puts[k].1)?;
    }
    Ok(())
}
