//! Moving a warehouse to the second layout.
ghost use Rattle.std.specs.Prelude.{◌≡◌, ◌≢◌, ◌⊎◌, ◌≤◌, ◌+◌, false, Some, length, IfErr, IfOk, IsErrOf, IsOkUnless};
ghost use Rattle.std.specs.Prelude.{OnOk};
ghost use Rattle.cube_model.specs.declared.fault.Fault.TheVariants.{Device, Failed, Memory};
ghost use Rattle.object_store.specs.Disk.{Leaves};
ghost use Rattle.object_store.specs.Store as stores;
ghost use Rattle.warehouse_objects.specs.Facts.{CanMigrate};
ghost use Rattle.warehouse_objects.specs.Migration.{migration_refusal};
ghost use Rattle.warehouse_objects.specs.Reads.{ForHeldOfRoot, ReadsOnly};
ghost use Rattle.warehouse_objects.specs.Warehouse.{Warehouse, migrated};
ghost use Rattle.warehouse_root.specs.declared.layout.Layout.TheVariants.{First};
ghost use Rattle.wire.specs.Limits.{most_objects};
ghost use Rattle.warehouse.specs.Migrating.{IsMigration, IsMigrationOf, MigrateRefuses, MigratedOrNot, MovesOnce};
ghost use Rattle.warehouse.specs.Session.{Breaks, CommitsOnce, ForItsWarehouse, IsAt, KeepsContent, StaysIfRefused};
ghost use Rattle.warehouse.specs.Session.{KeptBefore, MayLeave};
ghost use Rattle.warehouse.specs.Session.{StaysAt, content_of, device_of};
ghost use Rattle.warehouse.specs.Session.{disk_of};
ghost use Rattle.warehouse.specs.Session.{has_failed};

use crate::session::Session;
use cube_model::Fault;
use object_store::Store;
use sector_device::Sectors;
use std::alloc::Global;
use stored_rows::read_ship_modes;
use warehouse_objects::ShipModes;
use warehouse_root::{Layout, MODES_ID, Root};

/// The ship modes of all batches, and the root in the second layout.
#[derive(Drop)]
pub(crate) struct Migration {
    pub(crate) modes: ShipModes,
    pub(crate) bytes: Vec<u8>,
    pub(crate) root: Root,
    pub(crate) root_bytes: Vec<u8>,
}

impl<D: Sectors> Session<D> {
    /// Moves the warehouse to the second layout, in which ship modes are the members of an axis, in one commit.
    /// Batches, stored cuboids, their target and running queries stay as they are. In the second layout it does
    /// nothing.
    ///
    /// The batches are read one after another. `ReservedMember` where a ship mode is the text `ALL`, with the first
    /// such row of all batches, or else `TooManyMembers` where there are more than 65,535, with the first row with
    /// which there are. Otherwise it is refused for `Worn`, `Full`, `Memory` or `Device` alone.
    pub fn migrate(&mut self, alloc: Global) -> Result<(), Fault>
        // A crash at any point leaves the warehouse as it was, or in the second layout if it may be there.
        ensures leaves { MayLeave D.Sectors self.old self.new MigratedOrNot }

        // Then in the second layout, in one commit or none.
        ensures ok { OnOk result ((w : Warehouse) → IsAt D.Sectors self.old w
            → IsAt D.Sectors self.new (migrated w) × (D.keeps_word (device_of self.new) → CanMigrate w)) }
        ensures once { OnOk result ((w : Warehouse) → IsAt D.Sectors self.old w
            → MovesOnce D.Sectors w self.old self.new) }

        // After a refusal, unless the device failed, as it was at each moment.
        ensures refused { StaysIfRefused D.Sectors self.old self.new result }

        // When each error comes.
        ensures causes { IfErr result
            (λ fault. fault ≢ Device
            → ForItsWarehouse D.Sectors self.old self.new (λ w. MigrateRefuses D.Sectors self.old w fault)) }
    {
        if self.is_broken() {
            return Err(Fault::Failed);
        }
        match self.root.layout() {
            Layout::First => self.move_on(alloc),
            Layout::Second => Ok(()),
        }
    }

    // Moves a warehouse of the first layout.
    fn move_on(&mut self, alloc: Global) -> Result<(), Fault>
        requires fine { has_failed self.old ≡ false }
        requires first { self.old.root.layout ≡ First }
        ensures leaves { MayLeave D.Sectors self.old self.new MigratedOrNot }
        ensures ok { OnOk result ((w : Warehouse) → IsAt D.Sectors self.old w
            → IsAt D.Sectors self.new (migrated w) × (D.keeps_word (device_of self.new) → CanMigrate w)) }
        ensures refused { IfErr result (λ fault. fault ≢ Device → StaysAt D.Sectors self.old self.new) }
        ensures once { OnOk result (CommitsOnce D.Sectors self.old self.new) }
        ensures kept { IfErr result (λ fault. fault ≢ Device → KeepsContent D.Sectors self.old self.new) }
        ensures causes { IfErr result
            (λ fault. fault ≢ Device
            → ForItsWarehouse D.Sectors self.old self.new (λ w. MigrateRefuses D.Sectors self.old w fault)) }
        ensures failed { IsErrOf result Failed → ⊥ }
        ensures device { IsErrOf result Device → Breaks D.Sectors self.old self.new }
        ensures word { KeptBefore D.Sectors self.old self.new }
    {
        self.can_put(1)?;
        let migration = match read_migration(alloc, &mut self.store, &self.root) {
            Ok(migration) => migration,
            Err(fault) => return Err(fault),
        };
        self.put_migration(alloc, migration)
    }

    // Puts a move that was made ready.
    fn put_migration(&mut self, alloc: Global, migration: Migration) -> Result<(), Fault>
        requires fine { has_failed self.old ≡ false }
        requires few { length (content_of D.Sectors self.old).objects + 1 ≤ most_objects }
        requires ready { IsMigration self.old.root migration }
        ensures leaves { (w : Warehouse) → IsAt D.Sectors self.old w
            → (D.keeps_word (device_of self.old) → IsMigrationOf w self.old.root migration)
            → self.old.root.layout ≡ First
            → Leaves (disk_of D.Sectors self.old) (disk_of D.Sectors self.new) (MigratedOrNot w) }
        ensures ok { OnOk result ((w : Warehouse) → IsAt D.Sectors self.old w
            → (D.keeps_word (device_of self.old) → IsMigrationOf w self.old.root migration)
            → self.old.root.layout ≡ First
            → IsAt D.Sectors self.new (migrated w) × (D.keeps_word (device_of self.new) → CanMigrate w)) }
        ensures refused { IfErr result (λ fault. fault ≢ Device → StaysAt D.Sectors self.old self.new) }
        ensures once { OnOk result (CommitsOnce D.Sectors self.old self.new) }
        ensures kept { IfErr result (λ fault. fault ≢ Device → KeepsContent D.Sectors self.old self.new) }
        ensures causes { IfErr result (λ fault. fault ≢ Device → (w : Warehouse) → IsAt D.Sectors self.old w
            → (D.keeps_word (device_of self.old) → IsMigrationOf w self.old.root migration)
            → self.old.root.layout ≡ First
            → D.keeps_word (device_of self.new) → MigrateRefuses D.Sectors self.old w fault) }
        ensures failed { IsErrOf result Failed → ⊥ }
        ensures device { IsErrOf result Device → Breaks D.Sectors self.old self.new }
        ensures word { KeptBefore D.Sectors self.old self.new }
    {
        let Migration {
            modes,
            bytes,
            root,
            root_bytes,
        } = migration;
        let puts = [(MODES_ID, bytes.as_slice())];
        let layout = root.layout().number();
        match self
            .store
            .commit(alloc, &puts, &[], root_bytes.as_slice(), layout)
        {
            Ok(()) => {
                self.modes = modes;
                self.root = root;
                Ok(())
            }
            Err(fault) => Err(fault),
        }
    }
}

// What a move puts, from the batches of a store of the first layout, or the first cause that forbids it.
fn read_migration<D: Sectors>(
    alloc: Global,
    store: &mut Store<D>,
    root: &Root,
) -> Result<Migration, Fault>
    requires fine { stores.has_failed store.old ≡ false }
    ensures ok { IfOk result (IsMigration root.now) }
    ensures ready { IfOk result
        (λ m. ForHeldOfRoot D.Sectors store.old store.new root.now (λ w. IsMigrationOf w root.now m)) }
    ensures refused { IfErr result
        (λ fault. fault ≢ Device
        → ForHeldOfRoot D.Sectors store.old store.new root.now
        (λ w. (fault ≡ Memory) ⊎ (migration_refusal First w.batches ≡ Some fault))) }
    ensures failed { IsErrOf result Failed → ⊥ }
    ensures reads { ReadsOnly D.Sectors store.old store.new result }
{
    let modes = match read_ship_modes(alloc, store, root) {
        Ok(modes) => modes,
        Err(fault) => return Err(fault),
    };
    Migration::of(alloc, modes, root)
}

impl Migration {
    // That of ship modes, and of the root that is to be in the second layout.
    fn of(alloc: Global, modes: ShipModes, root: &Root) -> Result<Migration, Fault>
        ensures ok { IfOk result (IsMigration root.now) }
        ensures modes { IfOk result (λ m. m.modes ≡ modes) }
        ensures memory { IsOkUnless result Memory }
    {
        let root = root.in_second_layout(alloc)?;
        let root_bytes = root.encode(alloc)?;
        let bytes = modes.encode(alloc)?;
        Ok(Migration {
            modes,
            bytes,
            root,
            root_bytes,
        })
    }
}
