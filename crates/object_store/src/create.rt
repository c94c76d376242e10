// The device calls of a creation.
ghost use Rattle.std.specs.Prelude.{◌≡◌, ◌≢◌, ◌⊎◌, ◌≤◌, [], IfOk, IfErr, OnOk, OnErr};
ghost use Rattle.cube_model.specs.declared.fault.Fault.{Fault};
ghost use Rattle.sector_device.specs.Device.{IsSettled, LeavesOnly};
ghost use Rattle.object_store.specs.Commit.{ArePuts, IsFew, IsLayout, FitsRoot, created, puts_of};
ghost use Rattle.object_store.specs.DeviceCalls.{CountsFault};
ghost use Rattle.object_store.specs.Disk.{disk, Each, IsBlank, LeavesOrNone, OnlyImagesOf, ShowsSomeOrNone};
ghost use Rattle.object_store.specs.Ready.{KeepsLayout, IsReady, content_from};
ghost use Rattle.object_store.specs.Room.{LacksPlaces, sectors_asked_for};
ghost use Rattle.object_store.specs.Shows.{HasNone};

use crate::find::newest;
use crate::publish::publish;
use crate::staged::{Staged, stage_first};
use cube_model::Fault;
use sector_device::Sectors;
use std::alloc::Global;

/// Puts the first generation on a device without a valid superblock.
pub(crate) fn create<D: Sectors>(
    alloc: Global,
    device: &mut D,
    puts: &[(u32, &[u8])],
    root: &[u8],
    layout: u32,
) -> Result<Staged, Fault>
    requires least { 64 ≤ (D.state device.old).size }
    requires puts { ArePuts (puts_of puts.now) }
    requires root { FitsRoot root.now }
    requires layout { IsLayout layout }
    requires few { IsFew (created (puts_of puts.now) root.now layout) }
    ensures kept { IfOk result
        (λ staged. KeepsLayout (D.state device.new).size staged.superblock staged.entries.items staged.root.items) }
    ensures ready { IfOk result (λ staged. D.keeps_word device.new
        → IsReady (D.state device.new) staged.superblock staged.entries.items staged.root.items) }
    ensures content { IfOk result (λ staged. D.keeps_word device.new
        → content_from (D.state device.new).reads staged.superblock staged.entries.items staged.root.items
        ≡ created (puts_of puts.now) root.now layout) }
    ensures failures { CountsFault result (D.failed device.old) (D.failed device.new) }
    ensures leaves { Each (disk D.Sectors device.old) IsBlank
        → LeavesOrNone (disk D.Sectors device.old) (disk D.Sectors device.new)
        (λ c. c ≡ created (puts_of puts.now) root.now layout) }
    ensures blank { IfErr result (λ fault. fault ≢ Fault.Device → Each (disk D.Sectors device.old) IsBlank
        → Each (disk D.Sectors device.new) IsBlank) }
    ensures not_already { IfErr result (λ fault. D.keeps_word device.new → Each (disk D.Sectors device.old) IsBlank
        → fault ≢ Fault.AlreadyFormatted) }
    ensures only { IfErr result (λ fault. fault ≡ Fault.AlreadyFormatted
        → OnlyImagesOf (disk D.Sectors device.old) (disk D.Sectors device.new)) }
    ensures unformatted { OnOk result (D.keeps_word device.new → HasNone (D.state device.old).reads) }
    ensures spared { OnErr result ((HasNone (D.state device.old).reads → ⊥)
        → OnlyImagesOf (disk D.Sectors device.old) (disk D.Sectors device.new)) }
    ensures full { IfErr result
        (λ fault. fault ≡ Fault.Full
        → LacksPlaces (D.state device.old).size [] (sectors_asked_for [] (puts_of puts.now) root.now)) }
    ensures causes { IfErr result (λ fault. (fault ≡ Fault.AlreadyFormatted)
        ⊎ ((fault ≡ Fault.Device) ⊎ ((fault ≡ Fault.Memory) ⊎ (fault ≡ Fault.Full)))) }
{
    match newest(device) {
        Ok(None) => {}
        Ok(Some(_)) => return Err(Fault::AlreadyFormatted),
        Err(_) => return Err(Fault::Device),
    }
    publish_first(alloc, device, puts, root, layout)
}

// Puts the first generation over slots without a superblock.
fn publish_first<D: Sectors>(
    alloc: Global,
    device: &mut D,
    puts: &[(u32, &[u8])],
    root: &[u8],
    layout: u32,
) -> Result<Staged, Fault>
    requires least { 64 ≤ (D.state device.old).size }
    requires puts { ArePuts (puts_of puts.now) }
    requires root { FitsRoot root.now }
    requires layout { IsLayout layout }
    requires few { IsFew (created (puts_of puts.now) root.now layout) }
    requires settled { D.keeps_word device.old → IsSettled (D.state device.old) }
    requires none { D.keeps_word device.old → HasNone (D.state device.old).reads }
    ensures size { (D.state device.new).size ≡ (D.state device.old).size }
    ensures word { D.keeps_word device.new → D.keeps_word device.old }
    ensures kept { IfOk result
        (λ staged. KeepsLayout (D.state device.new).size staged.superblock staged.entries.items staged.root.items) }
    ensures ready { IfOk result (λ staged. D.keeps_word device.new
        → IsReady (D.state device.new) staged.superblock staged.entries.items staged.root.items) }
    ensures content { IfOk result (λ staged. D.keeps_word device.new
        → content_from (D.state device.new).reads staged.superblock staged.entries.items staged.root.items
        ≡ created (puts_of puts.now) root.now layout) }
    ensures failures { CountsFault result (D.failed device.old) (D.failed device.new) }
    ensures moments { (device.new ≡ device.old)
        ⊎ (D.keeps_word device.new → LeavesOnly (D.state device.old) (D.state device.new)
        (ShowsSomeOrNone (λ c. c ≡ created (puts_of puts.now) root.now layout) (D.state device.old).size)) }
    ensures untouched { IfErr result (λ fault. fault ≢ Fault.Device → device.new ≡ device.old) }
    ensures full { IfErr result
        (λ fault. fault ≡ Fault.Full
        → LacksPlaces (D.state device.old).size [] (sectors_asked_for [] (puts_of puts.now) root.now)) }
    ensures causes { IfErr result (λ fault. (fault ≡ Fault.Device) ⊎ ((fault ≡ Fault.Memory) ⊎ (fault ≡ Fault.Full))) }
{
    let staged = stage_first(alloc, device.count(), puts, root, layout)?;
    match publish(device, puts, &staged) {
        Ok(()) => Ok(staged),
        Err(_) => Err(Fault::Device),
    }
}
