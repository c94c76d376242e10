// What is on a device.
ghost use Rattle.std.specs.Prelude.{◌≡◌, ◌⊎◌, ◌≤◌, true, IfOk, IfErr, IfSome, OnOk, MatchOption};
ghost use Rattle.cube_model.specs.declared.fault.Fault.{Fault};
ghost use Rattle.sector_device.specs.Device.{CountsFailure, IsSettled, Syncs};
ghost use Rattle.superblock.specs.Superblock.{IsProperSuperblock};
ghost use Rattle.object_store.specs.Shows.{HasNone};
ghost use Rattle.object_store.specs.DeviceCalls.{ReadsDevice, CountsFault};
ghost use Rattle.object_store.specs.Reading.{IsNewest, two};
ghost use Rattle.object_store.specs.Ready.{KeepsLayout, IsReady};
ghost use Rattle.extents.specs.Extents.{AreLaidOut};
ghost use Rattle.object_store.specs.Catalogue as catalogues;
ghost use Rattle.object_store.specs.Catalogue.{IsCatalogue};
ghost use Rattle.object_store.specs.Places.{bytes_at, used_by};
ghost use Rattle.object_store.specs.Found.{ExplainsRefusal, ShowsNothing, SpellNoCatalogue, is_of_layout};

use crate::catalogue::{Catalogue, decode as decode_catalogue};
use crate::layout::check_extents;
use crate::read::read_range;
use cube_model::Fault;
use sector_device::{DeviceError, Sectors};
use std::alloc::Global;
use superblock::{Super, choose, decode};

/// What was found on a device.
#[derive(Drop)]
pub(crate) struct Found {
    pub superblock: Super,
    pub catalogue: Catalogue,
}

/// Syncs, and reads the newest superblock and its catalogue.
pub(crate) fn find<D: Sectors>(alloc: Global, device: &mut D) -> Result<Found, Fault>
    requires least { 64 ≤ (D.state device.old).size }
    ensures reads { ReadsDevice D.Sectors device.old device.new }
    ensures kept { IfOk result
        (λ found. KeepsLayout (D.state device.new).size found.superblock found.catalogue.entries.items
        found.catalogue.root.items) }
    ensures ready { IfOk result (λ found. D.keeps_word device.new
        → IsReady (D.state device.new) found.superblock found.catalogue.entries.items found.catalogue.root.items) }
    ensures failures { CountsFault result (D.failed device.old) (D.failed device.new) }
    ensures nothing { IfErr result (λ fault. is_of_layout fault ≡ true → D.keeps_word device.new
        → ShowsNothing (D.state device.old).size (D.state device.old).reads) }
    ensures explained { IfErr result (λ fault. D.keeps_word device.new
        → ExplainsRefusal fault (D.state device.old).size (D.state device.old).reads) }
    ensures causes { IfErr result (λ fault. (fault ≡ Fault.Memory) ⊎ (fault ≡ Fault.Device)
        ⊎ (is_of_layout fault ≡ true)) }
{
    let superblock = match newest(device) {
        Ok(Some(superblock)) => superblock,
        Ok(None) => return Err(Fault::NotFormatted),
        Err(_) => return Err(Fault::Device),
    };
    if superblock.sectors != device.count() {
        return Err(Fault::DeviceSize);
    }
    let catalogue = read_catalogue(alloc, device, &superblock)?;
    Ok(Found {
        superblock,
        catalogue,
    })
}

// The superblock of the greater generation, after a sync.
pub(crate) fn newest<D: Sectors>(device: &mut D) -> Result<Option<Super>, DeviceError>
    requires { 2 ≤ (D.state device.old).size }
    ensures reads { ReadsDevice D.Sectors device.old device.new }
    ensures failures { CountsFailure result (D.failed device.old) (D.failed device.new) }
    ensures settled { OnOk result (D.keeps_word device.new → IsSettled (D.state device.new)) }
    ensures proper { IfOk result (λ found. IfSome found IsProperSuperblock) }
    ensures found { IfOk result (λ found. D.keeps_word device.new
        → MatchOption found (HasNone (D.state device.new).reads) (IsNewest (D.state device.new).reads)) }
{
    settle(device)?;
    let mut even = [0; 512];
    device.read(0, &mut even)?;
    let mut odd = [0; 512];
    device.read(1, &mut odd)?;
    Ok(chosen(&even, &odd))
}

// Makes each sector one that has a single candidate, also where a crash left it several.
fn settle<D: Sectors>(device: &mut D) -> Result<(), DeviceError>
    ensures reads { ReadsDevice D.Sectors device.old device.new }
    ensures failures { CountsFailure result (D.failed device.old) (D.failed device.new) }
    ensures settled { OnOk result (D.keeps_word device.new → IsSettled (D.state device.new)) }
    ensures syncs { D.keeps_word device.new → Syncs (D.state device.old) (D.state device.new) }
{
    device.sync()
}

// The superblock of the greater generation in two slots.
fn chosen(even: &[u8; 512], odd: &[u8; 512]) -> Option<Super>
    ensures { MatchOption result (HasNone (two even.now odd.now)) (IsNewest (two even.now odd.now)) }
{
    choose(decode(even, 0), decode(odd, 1))
}

// The catalogue that a superblock names.
fn read_catalogue<D: Sectors>(
    alloc: Global,
    device: &mut D,
    superblock: &Super,
) -> Result<Catalogue, Fault>
    requires proper { IsProperSuperblock superblock.now }
    requires sized { superblock.now.sectors ≡ (D.state device.old).size }
    ensures reads { ReadsDevice D.Sectors device.old device.new }
    ensures proper { IfOk result (λ c. catalogues.IsProperCatalogue c.entries.items c.root.items) }
    ensures laid_out { IfOk result (λ c. AreLaidOut superblock.now.sectors (used_by superblock.now c.entries.items)) }
    ensures spelled { IfOk result (λ c. D.keeps_word device.new
        → IsCatalogue (bytes_at (D.state device.old).reads superblock.now.catalogue superblock.now.bytes)
        c.entries.items c.root.items) }
    ensures failures { CountsFault result (D.failed device.old) (D.failed device.new) }
    ensures refused { IfErr result
        (λ fault. (fault ≡ Fault.Memory) ⊎ ((fault ≡ Fault.Device) ⊎ ((fault ≡ Fault.BadLayout)
        × (D.keeps_word device.new
        → SpellNoCatalogue superblock.now
        (bytes_at (D.state device.old).reads superblock.now.catalogue superblock.now.bytes))))) }
{
    let bytes = read_bytes(alloc, device, superblock)?;
    parse(alloc, superblock, &bytes)
}

// The bytes of the catalogue that a superblock names.
fn read_bytes<D: Sectors>(
    alloc: Global,
    device: &mut D,
    superblock: &Super,
) -> Result<Vec<u8>, Fault>
    requires proper { IsProperSuperblock superblock.now }
    requires sized { superblock.now.sectors ≡ (D.state device.old).size }
    ensures reads { ReadsDevice D.Sectors device.old device.new }
    ensures bytes { IfOk result (λ bytes. D.keeps_word device.new
        → bytes.items ≡ bytes_at (D.state device.old).reads superblock.now.catalogue superblock.now.bytes) }
    ensures failures { CountsFault result (D.failed device.old) (D.failed device.new) }
    ensures causes { IfErr result (λ fault. (fault ≡ Fault.Memory) ⊎ (fault ≡ Fault.Device)) }
{
    let mut bytes = Vec::from_elem(alloc, 0u8, superblock.bytes as usize)?;
    match read_range(device, superblock.catalogue, 0, &mut bytes) {
        Ok(()) => Ok(bytes),
        Err(_) => Err(Fault::Device),
    }
}

// The catalogue that bytes spell, where its extents keep the rules of the layout.
fn parse(alloc: Global, superblock: &Super, bytes: &[u8]) -> Result<Catalogue, Fault>
    requires { IsProperSuperblock superblock.now }
    ensures spelled { IfOk result (λ c. IsCatalogue bytes.now c.entries.items c.root.items) }
    ensures laid_out { IfOk result (λ c. AreLaidOut superblock.now.sectors (used_by superblock.now c.entries.items)) }
    ensures refused { IfErr result
        (λ fault. (fault ≡ Fault.Memory) ⊎ ((fault ≡ Fault.BadLayout) × SpellNoCatalogue superblock.now bytes.now)) }
{
    let catalogue = decode_catalogue(alloc, bytes)?;
    check_extents(alloc, superblock, &catalogue.entries)?;
    Ok(catalogue)
}
