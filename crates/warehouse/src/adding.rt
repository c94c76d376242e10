//! Adding rows to the dimensions of a warehouse.
ghost use Rattle.std.specs.Prelude.{◌≡◌, ◌≢◌, ◌<◌, ◌≤◌, ◌⊎◌, ◌+◌, ◌↔◌, true, false, Some, None, length, IfOk, IfErr};
ghost use Rattle.std.specs.Prelude.{OnOk, IsErrOf, ℕ};
ghost use Rattle.std.specs.Result.{result_err};
ghost use Rattle.cube_model.specs.declared.fault.Fault.TheVariants.{Device, Failed, Memory};
ghost use Rattle.cube_model.specs.declared.rows.DimRows as dim_rows;
ghost use Rattle.cube_model.specs.Validity.{HaveShortTexts};
ghost use Rattle.wire.specs.Limits.{most_objects};
ghost use Rattle.stored_rows.specs.Added.{widened};
ghost use Rattle.object_store.specs.Disk.{Leaves};
ghost use Rattle.warehouse_root.specs.Limits.{most_additions};
ghost use Rattle.warehouse_objects.specs.Facts.{AdmitsRows, number_refusal, rows_refusal_of};
ghost use Rattle.warehouse_objects.specs.Warehouse.{Warehouse};
ghost use Rattle.warehouse_objects.specs.Represents.{Represents};
ghost use Rattle.warehouse.specs.Refusing.{is_of_device};
ghost use Rattle.warehouse.specs.Session.{AddRefuses, Breaks, ForItsWarehouse, IsAt, KeptBefore, MayLeave};
ghost use Rattle.warehouse.specs.Session.{StaysIfRefused, content_of, device_of, disk_of};
ghost use Rattle.warehouse.specs.Session.{has_failed};
ghost use Rattle.warehouse.specs.Session.{CommitsOnce, KeepsContent};
ghost use Rattle.warehouse.specs.Widening.{IsReadyToWiden, IsWidening, WidenedOrNot};

use crate::session::Session;
use crate::widening::{MOST_PUTS, Widening, puts_of, widen};
use cube_model::{DimRows, Fault};
use sector_device::Sectors;
use std::alloc::Global;
use warehouse_root::limits::MOST_ADDITIONS;

impl<D: Sectors> Session<D> {
    /// Adds rows to the dimensions under a number, or answers the first cause to refuse them. Additions are numbered
    /// from 1, apart from batches, and may be empty. Batches, cuboids and running queries stay as they are.
    ///
    /// The causes come in this order: `Failed`, `Repeated`, `Gap`, `TooManyAdditions`, and those of `Dims::with_rows`,
    /// whose rows count from 1 in the addition. `Memory` may come in place of one of the latter. An addition that is
    /// admissible is refused for `Worn`, `Full`, `Memory` or `Device` alone.
    pub fn add(&mut self, alloc: Global, number: u32, rows: &DimRows) -> Result<(), Fault>
        requires short { HaveShortTexts rows.now }

        // A crash at any point leaves the warehouse as it was, or with these rows if they may be added.
        ensures leaves { MayLeave D.Sectors self.old self.new
            (λ w c. Represents c w ⊎ (AdmitsRows w number rows.now × Represents c (widened w rows.now))) }

        // Then with them, in one commit.
        ensures ok { OnOk result ((w : Warehouse) → IsAt D.Sectors self.old w
            → IsAt D.Sectors self.new (widened w rows.now)
            × (D.keeps_word (device_of self.new) → AdmitsRows w number rows.now)) }
        ensures once { OnOk result (CommitsOnce D.Sectors self.old self.new) }

        // After a refusal, unless the device failed, as it was at each moment.
        ensures refused { StaysIfRefused D.Sectors self.old self.new result }

        // When each error comes.
        ensures causes { IfErr result
            (λ fault. fault ≢ Device
            → ForItsWarehouse D.Sectors self.old self.new
            (λ w. AddRefuses D.Sectors self.old w number rows.now fault)) }
    {
        let wider = match self.widening(alloc, number, rows) {
            Ok(wider) => wider,
            Err(fault) => return Err(fault),
        };
        self.put_wider(alloc, wider)
    }

    // The dimensions with rows added under a number, and what their commit puts, or the first cause to refuse them. No
    // device call is made.
    fn widening(&self, alloc: Global, number: u32, rows: &DimRows) -> Result<Widening, Fault>
        requires short { HaveShortTexts rows.now }
        ensures fine { IfOk result (λ _. has_failed self.now ≡ false) }
        ensures few { IfOk result (λ _. length (content_of D.Sectors self.now).objects + 4 ≤ most_objects) }
        ensures widens { IfOk result (IsWidening self.now.dims.value self.now.root rows.now) }
        ensures ready { IfOk result (λ wider. (w : Warehouse) → IsAt D.Sectors self.now w
            → IsReadyToWiden D.Sectors self.now w number rows.now wider) }
        ensures refused { IfErr result
            (λ fault. ForItsWarehouse D.Sectors self.now self.now (λ w. (rows_refusal_of w number rows.now ≡ Some fault)
            ⊎ ((fault ≡ Memory) × (number_refusal w.additions number ≡ None)))) }
        ensures failed { IsErrOf result Failed ↔ (has_failed self.now ≡ true) }
        ensures device { IsErrOf result Device → ⊥ }
        ensures leaves { MayLeave D.Sectors self.now self.now (λ w c. Represents c w) }
    {
        self.can_put(MOST_PUTS)?;
        check_number(self.root.additions(), number)?;
        widen(alloc, &self.dims, &self.root, rows)
    }

    // Puts an addition that was made ready.
    fn put_wider(&mut self, alloc: Global, wider: Widening) -> Result<(), Fault>
        requires fine { has_failed self.old ≡ false }
        requires few { length (content_of D.Sectors self.old).objects + 4 ≤ most_objects }
        requires widens { (more : dim_rows.DimRows) × IsWidening self.old.dims.value self.old.root more wider }
        ensures leaves { (w : Warehouse) (number : ℕ) (more : dim_rows.DimRows)
            → IsReadyToWiden D.Sectors self.old w number more wider
            → Leaves (disk_of D.Sectors self.old) (disk_of D.Sectors self.new) (WidenedOrNot w number more) }
        ensures ok { OnOk result ((w : Warehouse) (number : ℕ) (more : dim_rows.DimRows)
            → IsReadyToWiden D.Sectors self.old w number more wider
            → IsAt D.Sectors self.new (widened w more)
            × (D.keeps_word (device_of self.new) → AdmitsRows w number more)) }
        ensures refused { IfErr result (λ fault. fault ≢ Device → (w : Warehouse) (number : ℕ) (more : dim_rows.DimRows)
            → IsReadyToWiden D.Sectors self.old w number more wider
            → IsAt D.Sectors self.new w
            × Leaves (disk_of D.Sectors self.old) (disk_of D.Sectors self.new) (λ c. Represents c w)) }
        ensures once { OnOk result (CommitsOnce D.Sectors self.old self.new) }
        ensures kept { IfErr result (λ fault. fault ≢ Device → KeepsContent D.Sectors self.old self.new) }
        ensures causes { IfErr result (λ fault. fault ≢ Device → (w : Warehouse) (number : ℕ) (more : dim_rows.DimRows)
            → IsReadyToWiden D.Sectors self.old w number more wider
            → D.keeps_word (device_of self.new) → AddRefuses D.Sectors self.old w number more fault) }
        ensures failed { IsErrOf result Failed → ⊥ }
        ensures device { IsErrOf result Device → Breaks D.Sectors self.old self.new }
        ensures word { KeptBefore D.Sectors self.old self.new }
    {
        let Widening {
            dims,
            root,
            root_bytes,
            objects,
        } = wider;
        let layout = root.layout().number();
        let puts = match puts_of(alloc, objects.as_slice()) {
            Ok(puts) => puts,
            Err(fault) => return Err(fault),
        };
        match self
            .store
            .commit(alloc, puts.as_slice(), &[], root_bytes.as_slice(), layout)
        {
            Ok(()) => {
                self.dims = dims;
                self.root = root;
                Ok(())
            }
            Err(fault) => Err(fault),
        }
    }
}

// Looks for the first cause that forbids the number of an addition after so many.
fn check_number(additions: u32, number: u32) -> Result<(), Fault>
    ensures cause { result_err result ≡ number_refusal additions number }
    ensures next { OnOk result ((number ≡ additions + 1) × (additions < most_additions)) }
    ensures apart { IfErr result (λ fault. is_of_device fault ≡ false) }
{
    if number <= additions {
        return Err(Fault::Repeated);
    }
    if number - 1 > additions {
        return Err(Fault::Gap);
    }
    if additions >= MOST_ADDITIONS {
        return Err(Fault::TooManyAdditions);
    }
    Ok(())
}
