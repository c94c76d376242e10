// A store on a device.
ghost use Rattle.std.specs.Prelude.{◌≡◌, ◌≢◌, ◌⊎◌, ◌+◌, ◌-◌, ◌*◌, ◌^◌, ◌<◌, ◌≤◌, ◌↔◌, min, ℕ, true, false, List, []};
ghost use Rattle.std.specs.Prelude.{Some, length, option_map, IfOk, IfErr, IsSomeAnd, IsTrue, OnOk, OnErr, IsErrOf};
ghost use Rattle.cube_model.specs.declared.fault.Fault.TheVariants.{Device, Failed, Full, Worn, Memory};
ghost use Rattle.cube_model.specs.declared.fault.Fault.TheVariants.{AlreadyFormatted, DeviceSize};
ghost use Rattle.std.specs.Vec.{vec_capacity};
ghost use Rattle.superblock.specs.Superblock.{sectors_of};
ghost use Rattle.wire.specs.Parts.{Gives};
ghost use Rattle.object_store.specs.Content.{bytes_of};
ghost use Rattle.object_store.specs.Commit.{ArePuts, IsFew, IsLayout, FitsRoot, committed, created, puts_of, find_by};
ghost use Rattle.object_store.specs.Ready.{KeepsLayout, IsReady};
ghost use Rattle.object_store.specs.Publish.{IsStagedOver, IsSomeStagedOver};
ghost use Rattle.object_store.specs.Room.{LacksRoom, empty_room};
ghost use Rattle.object_store.specs.Disk.{disk, IsBlank, AllShow, Leaves, LeavesOrNone, Each, OnlyImagesOf, IsShown};
ghost use Rattle.object_store.specs.Disk.{MayShowNothing, HasOneImage};
ghost use Rattle.object_store.specs.Found.{ExplainsRefusal, is_of_layout};
ghost use Rattle.object_store.specs.Shows.{HasNone};

use crate::catalogue::Entry;
use crate::create::create;
use crate::entries::find as find_entry;
use crate::find::find;
use crate::publish::publish;
use crate::read::{push_sectors, read_range};
use crate::staged::{Staged, stage_next};
use cube_model::Fault;
use sector_device::Sectors;
use std::alloc::Global;
use superblock::Super;
use wire::limits::LEAST_SECTORS;

/// Objects by id and a root, on a device. A commit replaces them at once, wherever it crashes.
///
/// After `Device` it answers `Failed` to each `get`, `read_at` and `commit`, and calls the device no more. It is to be
/// opened again.
pub struct Store<D: Sectors> {
    device: D,
    superblock: Super,
    entries: Vec<Entry>,
    root: Vec<u8>,
    failed: bool,
    ghost kept: { KeepsLayout (D.state device).size superblock entries.items root.items },
    ghost ready: { failed ≡ false → D.keeps_word device
        → IsReady (D.state device) superblock entries.items root.items },
}

// Written out, so that a proof has one call to follow where one is let go.
impl<D: Sectors + Drop> Drop for Store<D> {
    fn drop(self) {
        let Store {
            device: _,
            superblock: _,
            entries: _,
            root: _,
            failed: _,
        } = self;
    }
}

impl<D: Sectors> Store<D> {
    ghost use Rattle.object_store.specs.Store.{device_of, content_of, has_failed, disk_of, room_of, size_in};
    ghost use Rattle.object_store.specs.Store.{IsAsBefore, IsStill, KeepsObjects, Breaks, Refuses, IsOneOf};

    /// Makes a store on a device without one, of generation 1. A refusal hands the device back.
    pub fn create(
        alloc: Global,
        mut device: D,
        puts: &[(u32, &[u8])],
        root: &[u8],
        layout: u32,
    ) -> Result<Store<D>, (Fault, D)>
        requires puts { ArePuts (puts_of puts.now) }
        requires root { FitsRoot root.now }
        requires layout { IsLayout layout }
        requires few { IsFew (created (puts_of puts.now) root.now layout) }

        // Where no image at the start has a valid superblock: until the end an image has none, or shows the content.
        ensures leaves { IfOk result (λ store. Each (disk D.Sectors device) IsBlank →
            LeavesOrNone (disk D.Sectors device) (disk_of D.Sectors store)
            (λ c. c ≡ created (puts_of puts.now) root.now layout)) }
        ensures leaves_err { IfErr result (λ e. Each (disk D.Sectors device) IsBlank →
            LeavesOrNone (disk D.Sectors device) (disk D.Sectors e.1)
            (λ c. c ≡ created (puts_of puts.now) root.now layout)) }
        ensures still_blank { IfErr result (λ e. e.0 ≢ Device → Each (disk D.Sectors device) IsBlank
            → Each (disk D.Sectors e.1) IsBlank) }
        ensures not_already { IfErr result (λ e. D.keeps_word e.1 → Each (disk D.Sectors device) IsBlank
            → e.0 ≢ AlreadyFormatted) }

        // Then it is usable, there is one image, and it shows the content.
        ensures fine { IfOk result (λ store. has_failed store ≡ false) }
        ensures ok { IfOk result (λ store. (disk_of D.Sectors store).keeps_word
            → content_of D.Sectors store ≡ created (puts_of puts.now) root.now layout) }
        ensures settled { IfOk result (λ store. (disk_of D.Sectors store).keeps_word
            → HasOneImage (disk_of D.Sectors store)) }
        ensures shows { IfOk result (λ store. AllShow (disk_of D.Sectors store) (λ c. c ≡ content_of D.Sectors store)) }
        ensures failures { IfOk result (λ store. (disk_of D.Sectors store).failures ≡ D.failed device) }

        // It succeeds only where reads show no valid superblock at the start. Where they show one, no sector is
        // written.
        ensures only { IfErr result
            (λ e. e.0 ≡ AlreadyFormatted → OnlyImagesOf (disk D.Sectors device) (disk D.Sectors e.1)) }
        ensures unformatted { IfOk result (λ store. (disk_of D.Sectors store).keeps_word
            → HasNone (D.state device).reads) }
        ensures spared { IfErr result (λ e. (HasNone (D.state device).reads → ⊥)
            → OnlyImagesOf (disk D.Sectors device) (disk D.Sectors e.1)) }

        // When each error comes.
        ensures device { IfErr result (λ e. e.0 ≡ Device → D.failed e.1 ≡ min (D.failed device + 1) (2 ^ 64 - 1)) }
        ensures size { IfErr result (λ e. e.0 ≡ DeviceSize → (D.state device).size < 64) }
        ensures full { IfErr result
            (λ e. e.0 ≡ Full → LacksRoom (empty_room (D.state device).size) (puts_of puts.now) [] root.now) }
        ensures causes { IfErr result
            (λ e. (e.0 ≡ AlreadyFormatted)
            ⊎ ((e.0 ≡ DeviceSize) ⊎ ((e.0 ≡ Device) ⊎ ((e.0 ≡ Full) ⊎ (e.0 ≡ Memory))))) }
    {
        if device.count() < LEAST_SECTORS {
            return Err((Fault::DeviceSize, device));
        }
        match create(alloc, &mut device, puts, root, layout) {
            Ok(staged) => Ok(Store {
                device,
                superblock: staged.superblock,
                entries: staged.entries,
                root: staged.root,
                failed: false,
            }),
            Err(fault) => Err((fault, device)),
        }
    }

    /// Finds what is on a device, also one that was not restarted. A refusal hands the device back.
    pub fn open(alloc: Global, mut device: D) -> Result<Store<D>, (Fault, D)>
        // It is usable, there is one image, and it shows the content, which an image at the start showed.
        ensures fine { IfOk result (λ store. has_failed store ≡ false) }
        ensures settled { IfOk result (λ store. (disk_of D.Sectors store).keeps_word
            → HasOneImage (disk_of D.Sectors store)) }
        ensures found { IfOk result (λ store. (disk_of D.Sectors store).keeps_word
            → IsShown (disk D.Sectors device) (content_of D.Sectors store)) }
        ensures shows { IfOk result (λ store. AllShow (disk_of D.Sectors store) (λ c. c ≡ content_of D.Sectors store)) }
        ensures failures { IfOk result (λ store. (disk_of D.Sectors store).failures ≡ D.failed device) }

        // Each image at any moment is one of those at the start.
        ensures only { IfOk result (λ store. OnlyImagesOf (disk D.Sectors device) (disk_of D.Sectors store)) }
        ensures only_err { IfErr result (λ e. OnlyImagesOf (disk D.Sectors device) (disk D.Sectors e.1)) }

        // When each error comes.
        ensures nothing { IfErr result (λ e. is_of_layout e.0 ≡ true → D.keeps_word e.1
            → MayShowNothing (disk D.Sectors device)) }
        ensures explained { IfErr result
            (λ e. D.keeps_word e.1 → ExplainsRefusal e.0 (D.state device).size (D.state device).reads) }
        ensures device { IfErr result (λ e. e.0 ≡ Device → D.failed e.1 ≡ min (D.failed device + 1) (2 ^ 64 - 1)) }
        ensures causes { IfErr result (λ e. (e.0 ≡ Memory) ⊎ ((e.0 ≡ Device) ⊎ (is_of_layout e.0 ≡ true))) }
    {
        if device.count() < LEAST_SECTORS {
            return Err((Fault::DeviceSize, device));
        }
        match find(alloc, &mut device) {
            Ok(found) => Ok(Store {
                device,
                superblock: found.superblock,
                entries: found.catalogue.entries,
                root: found.catalogue.root,
                failed: false,
            }),
            Err(fault) => Err((fault, device)),
        }
    }

    /// The device.
    pub fn device(&self) -> &D
        ensures { result.now ≡ device_of self.now }
    {
        &self.device
    }

    /// Gives the device back.
    pub fn close(self) -> D
        ensures { result ≡ device_of self }
    {
        let Store {
            device,
            superblock: _,
            entries: _,
            root: _,
            failed: _,
        } = self;
        device
    }

    /// Whether the device failed in an earlier call. Until then there is one image, and it shows the content.
    pub fn is_broken(&self) -> bool
        ensures broken { result ≡ has_failed self.now }
        ensures shows { has_failed self.now ≡ false
            → AllShow (disk_of D.Sectors self.now) (λ c. c ≡ content_of D.Sectors self.now) }
        ensures leaves { has_failed self.now ≡ false
            → Leaves (disk_of D.Sectors self.now) (disk_of D.Sectors self.now)
            (λ c. c ≡ content_of D.Sectors self.now) }
        ensures settled { has_failed self.now ≡ false → (disk_of D.Sectors self.now).keeps_word
            → HasOneImage (disk_of D.Sectors self.now) }
    {
        self.failed
    }

    /// The root.
    pub fn root(&self) -> &[u8]
        ensures { result.now ≡ (content_of D.Sectors self.now).root }
    {
        &self.root
    }

    /// The layout of the objects, 1 or 2.
    pub fn layout(&self) -> u32
        ensures { result ≡ (content_of D.Sectors self.now).layout }
    {
        self.superblock.layout
    }

    /// How many commits made the content.
    pub fn generation(&self) -> u64
        ensures { result ≡ (content_of D.Sectors self.now).generation }
    {
        self.superblock.generation
    }

    /// How many objects there are.
    pub fn objects(&self) -> u32
        ensures { result ≡ length (content_of D.Sectors self.now).objects }
    {
        self.entries.len() as u32
    }

    /// How many bytes an object has, if there is one of that id.
    pub fn size(&self, id: u32) -> Option<u64>
        ensures entry { result ≡ size_in self.now id }
        ensures bytes { D.keeps_word (device_of self.now)
            → result ≡ option_map length (bytes_of (content_of D.Sectors self.now) id) }
    {
        match find_entry(&self.entries, id) {
            Some(entry) => Some(entry.bytes),
            None => None,
        }
    }

    /// The bytes of an object, if there is one of that id.
    pub fn get(&mut self, alloc: Global, id: u32) -> Result<Option<Vec<u8>>, Fault>
        ensures found { IfOk result (λ found. D.keeps_word (device_of self.new)
            → option_map (λ bytes. bytes.items) found ≡ bytes_of (content_of D.Sectors self.old) id) }

        // The content stays, at each moment.
        ensures leaves { has_failed self.old ≡ false
            → Leaves (disk_of D.Sectors self.old) (disk_of D.Sectors self.new)
            (λ c. c ≡ content_of D.Sectors self.old) }
        ensures stays { (IsErrOf result Device → ⊥) → IsStill D.Sectors self.old self.new }
        ensures kept { KeepsObjects D.Sectors self.old self.new }
        ensures no_call { IsErrOf result Failed → device_of self.new ≡ device_of self.old }

        // When each error comes.
        ensures failed { IsErrOf result Failed ↔ (has_failed self.old ≡ true) }
        ensures device { IsErrOf result Device → Breaks D.Sectors self.old self.new }
        ensures causes { IfErr result (λ fault. (fault ≡ Failed) ⊎ ((fault ≡ Device) ⊎ (fault ≡ Memory))) }
    {
        if self.is_broken() {
            return Err(Fault::Failed);
        }
        let Some(entry) = find_entry(&self.entries, id) else {
            return Ok(None);
        };
        let Ok(mut bytes) = Vec::with_capacity(alloc, self.room_for(id, entry)) else {
            return Err(Fault::Memory);
        };
        self.read_object(id, entry, &mut bytes)?;
        Ok(Some(bytes))
    }

    /// Reads bytes of an object from a place on, and the sectors that they lie in alone. It answers false, and reads
    /// nothing, where they do not lie within the object, or there is none.
    pub fn read_at(&mut self, id: u32, at: u64, to: &mut [u8]) -> Result<bool, Fault>
        ensures within { IfOk result (λ within. D.keeps_word (device_of self.new) → IsTrue within
            ↔ IsSomeAnd (bytes_of (content_of D.Sectors self.old) id) (λ bytes. at + length to.old ≤ length bytes)) }
        ensures bytes { IfOk result (λ within. IsTrue within → D.keeps_word (device_of self.new)
            → Gives (bytes_of (content_of D.Sectors self.old) id) at to.new) }
        ensures untouched { IfOk result (λ within. within ≡ false → to.new ≡ to.old) }

        // The content stays, at each moment.
        ensures leaves { has_failed self.old ≡ false
            → Leaves (disk_of D.Sectors self.old) (disk_of D.Sectors self.new)
            (λ c. c ≡ content_of D.Sectors self.old) }
        ensures stays { (IsErrOf result Device → ⊥) → IsStill D.Sectors self.old self.new }
        ensures kept { KeepsObjects D.Sectors self.old self.new }
        ensures no_call { IsErrOf result Failed → device_of self.new ≡ device_of self.old }

        // When each error comes.
        ensures failed { IsErrOf result Failed ↔ (has_failed self.old ≡ true) }
        ensures device { IsErrOf result Device → Breaks D.Sectors self.old self.new }
        ensures causes { IfErr result (λ fault. (fault ≡ Failed) ⊎ (fault ≡ Device)) }
    {
        if self.is_broken() {
            return Err(Fault::Failed);
        }
        let Some(entry) = find_entry(&self.entries, id) else {
            return Ok(false);
        };
        if at > entry.bytes || to.len() as u64 > entry.bytes - at {
            return Ok(false);
        }
        self.read_entry(id, entry, at, to)?;
        Ok(true)
    }

    // How many bytes the sectors of an object have.
    fn room_for(&self, id: u32, entry: Entry) -> usize
        requires found { find_by (λ e. e.id) id self.now.entries.items ≡ Some entry }
        ensures { result ≡ sectors_of entry.bytes * 512 }
    {
        (entry.bytes as usize).div_ceil(512) * 512
    }

    // Reads an object. Where the device fails, the store has failed.
    fn read_object(&mut self, id: u32, entry: Entry, to: &mut Vec<u8>) -> Result<(), Fault>
        requires fine { has_failed self.old ≡ false }
        requires found { find_by (λ e. e.id) id self.old.entries.items ≡ Some entry }
        requires none { to.old.items ≡ [] }
        requires room { sectors_of entry.bytes * 512 ≤ vec_capacity to.old }
        ensures bytes { OnOk result (D.keeps_word (device_of self.new)
            → Some to.new.items ≡ bytes_of (content_of D.Sectors self.old) id) }
        ensures leaves { Leaves (disk_of D.Sectors self.old) (disk_of D.Sectors self.new)
            (λ c. c ≡ content_of D.Sectors self.old) }
        ensures stays { OnOk result (IsStill D.Sectors self.old self.new) }
        ensures kept { KeepsObjects D.Sectors self.old self.new }
        ensures device { OnErr result (Breaks D.Sectors self.old self.new) }
        ensures cause { IfErr result (λ fault. fault ≡ Device) }
    {
        let sectors = entry.bytes.div_ceil(512) as u32;
        match push_sectors(&mut self.device, entry.first, sectors, to) {
            Ok(()) => {
                to.truncate(entry.bytes as usize);
                Ok(())
            }
            Err(_) => {
                self.failed = true;
                Err(Fault::Device)
            }
        }
    }

    // Reads bytes of an object from a place on. Where the device fails, the store has failed.
    fn read_entry(&mut self, id: u32, entry: Entry, at: u64, to: &mut [u8]) -> Result<(), Fault>
        requires fine { has_failed self.old ≡ false }
        requires found { find_by (λ e. e.id) id self.old.entries.items ≡ Some entry }
        requires within { at + length to.old ≤ entry.bytes }
        ensures bytes { OnOk result (D.keeps_word (device_of self.new)
            → Gives (bytes_of (content_of D.Sectors self.old) id) at to.new) }
        ensures leaves { Leaves (disk_of D.Sectors self.old) (disk_of D.Sectors self.new)
            (λ c. c ≡ content_of D.Sectors self.old) }
        ensures stays { OnOk result (IsStill D.Sectors self.old self.new) }
        ensures kept { KeepsObjects D.Sectors self.old self.new }
        ensures device { OnErr result (Breaks D.Sectors self.old self.new) }
        ensures cause { IfErr result (λ fault. fault ≡ Device) }
    {
        match read_range(&mut self.device, entry.first, at, to) {
            Ok(()) => Ok(()),
            Err(_) => {
                self.failed = true;
                Err(Fault::Device)
            }
        }
    }

    /// Puts objects, drops others, and replaces the root and the layout. A put takes the place of an object with its
    /// id.
    pub fn commit(
        &mut self,
        alloc: Global,
        puts: &[(u32, &[u8])],
        drops: &[u32],
        root: &[u8],
        layout: u32,
    ) -> Result<(), Fault>
        requires puts { ArePuts (puts_of puts.now) }
        requires root { FitsRoot root.now }
        requires layout { IsLayout layout }
        requires few { IsFew (committed (puts_of puts.now) drops.now root.now layout (content_of D.Sectors self.old)) }

        // A crash at any point leaves the content before or the content after.
        ensures leaves { has_failed self.old ≡ false → Leaves (disk_of D.Sectors self.old) (disk_of D.Sectors self.new)
            (IsOneOf (content_of D.Sectors self.old)
            (committed (puts_of puts.now) drops.now root.now layout (content_of D.Sectors self.old))) }

        // Then the content after.
        ensures ok { OnOk result ((disk_of D.Sectors self.new).keeps_word
            → content_of D.Sectors self.new ≡ committed (puts_of puts.now) drops.now root.now layout
            (content_of D.Sectors self.old)) }
        ensures fine { OnOk result ((has_failed self.old ≡ false) × (has_failed self.new ≡ false)) }
        ensures failures { OnOk result ((disk_of D.Sectors self.new).failures ≡ (disk_of D.Sectors self.old).failures) }
        ensures shows { OnOk result (AllShow (disk_of D.Sectors self.new) (λ c. c ≡ content_of D.Sectors self.new)) }

        // What a refusal leaves, and when it comes.
        ensures refused { IfErr result (λ fault. fault ≢ Device → IsAsBefore D.Sectors self.old self.new) }
        ensures failed { IsErrOf result Failed ↔ (has_failed self.old ≡ true) }
        ensures device { IsErrOf result Device → Breaks D.Sectors self.old self.new }
        ensures refuses { IfErr result (λ fault. fault ≢ Device → fault ≢ Failed →
            Refuses (content_of D.Sectors self.old) (room_of self.old) (puts_of puts.now) drops.now root.now fault) }
        ensures readable { IfErr result (λ fault. is_of_layout fault ≡ false) }
    {
        let staged = self.stage(alloc, puts, drops, root, layout)?;
        self.put_staged(puts, staged)
    }

    // Stages a commit. Nothing is written yet.
    fn stage(
        &self,
        alloc: Global,
        puts: &[(u32, &[u8])],
        drops: &[u32],
        root: &[u8],
        layout: u32,
    ) -> Result<Staged, Fault>
        requires puts { ArePuts (puts_of puts.now) }
        requires root { FitsRoot root.now }
        requires layout { IsLayout layout }
        requires few { IsFew (committed (puts_of puts.now) drops.now root.now layout (content_of D.Sectors self.now)) }
        ensures ok { IfOk result
            (IsStagedOver self.now.superblock self.now.entries.items (puts_of puts.now) drops.now root.now layout) }
        ensures fine { OnOk result (has_failed self.now ≡ false) }
        ensures failed { IsErrOf result Failed ↔ (has_failed self.now ≡ true) }
        ensures not_device { IsErrOf result Device → ⊥ }
        ensures refuses { IfErr result (λ fault. fault ≢ Failed →
            Refuses (content_of D.Sectors self.now) (room_of self.now) (puts_of puts.now) drops.now root.now fault) }
        ensures readable { IfErr result (λ fault. is_of_layout fault ≡ false) }
    {
        if self.is_broken() {
            return Err(Fault::Failed);
        }
        if self.superblock.generation == u64::MAX {
            return Err(Fault::Worn);
        }
        stage_next(
            alloc,
            &self.superblock,
            &self.entries,
            puts,
            drops,
            root,
            layout,
        )
    }

    // Writes what is staged, and makes it the content. Where the device fails, the store has failed.
    fn put_staged(&mut self, puts: &[(u32, &[u8])], staged: Staged) -> Result<(), Fault>
        requires fine { has_failed self.old ≡ false }
        requires is_staged { IsSomeStagedOver self.old.superblock self.old.entries.items (puts_of puts.now) staged }
        ensures leaves { (drops root : List ℕ) (layout : ℕ)
            → IsStagedOver self.old.superblock self.old.entries.items (puts_of puts.now) drops root layout staged
            → Leaves (disk_of D.Sectors self.old) (disk_of D.Sectors self.new)
            (IsOneOf (content_of D.Sectors self.old)
            (committed (puts_of puts.now) drops root layout (content_of D.Sectors self.old))) }
        ensures ok { OnOk result ((drops root : List ℕ) (layout : ℕ)
            → IsStagedOver self.old.superblock self.old.entries.items (puts_of puts.now) drops root layout staged
            → (disk_of D.Sectors self.new).keeps_word
            → content_of D.Sectors self.new ≡ committed (puts_of puts.now) drops root layout
            (content_of D.Sectors self.old)) }
        ensures fine { OnOk result (has_failed self.new ≡ false) }
        ensures failures { OnOk result ((disk_of D.Sectors self.new).failures ≡ (disk_of D.Sectors self.old).failures) }
        ensures device { OnErr result (Breaks D.Sectors self.old self.new) }
        ensures cause { IfErr result (λ fault. fault ≡ Device) }
    {
        match publish(&mut self.device, puts, &staged) {
            Ok(()) => {
                self.superblock = staged.superblock;
                self.entries = staged.entries;
                self.root = staged.root;
                Ok(())
            }
            Err(_) => {
                self.failed = true; // until it is opened again
                Err(Fault::Device)
            }
        }
    }
}
