//! Adding a batch to a warehouse.
ghost use Rattle.std.specs.Prelude.{◌≡◌, ◌≢◌, ◌≤◌, ◌⊎◌, ◌+◌, ◌↔◌, true, false, Some, List, length, IfOk, IfErr};
ghost use Rattle.std.specs.Prelude.{MatchResult, OnOk, IsErrOf, take};
ghost use Rattle.std.specs.Result.{result_err};
ghost use Rattle.batch_admission.specs.Accepted.{HasAccepted};
ghost use Rattle.cube_model.specs.Admission.{early_refusal};
ghost use Rattle.cube_model.specs.Limits.{most_batch_rows, most_batches};
ghost use Rattle.object_store.specs.Commit as commits;
ghost use Rattle.cube_model.specs.declared.fault.Fault.TheVariants.{Device, Failed, Memory};
ghost use Rattle.cube_model.specs.declared.rows.LineOrder.{LineOrder};
ghost use Rattle.wire.specs.Limits.{most_objects};
ghost use Rattle.object_store.specs.Disk.{Leaves};
ghost use Rattle.warehouse_objects.specs.Facts.{AdmitsBatch, PassesChecks, refusal_of};
ghost use Rattle.warehouse_objects.specs.Warehouse.{Warehouse, loaded};
ghost use Rattle.warehouse_objects.specs.Represents.{Represents, root_of};
ghost use Rattle.warehouse.specs.Growing.{Grows};
ghost use Rattle.warehouse.specs.Loaded.{Agrees};
ghost use Rattle.warehouse.specs.Prepared.{IsPrepared, prepared_puts};
ghost use Rattle.warehouse.specs.Refusing.{is_of_device};
ghost use Rattle.warehouse.specs.Session.{Breaks, CommitsOnce, ForItsWarehouse, IsAt, KeptBefore, StaysIfRefused};
ghost use Rattle.warehouse.specs.Session.{MayLeave};
ghost use Rattle.warehouse.specs.Session.{content_of, device_of, disk_of};
ghost use Rattle.warehouse.specs.Session.{has_failed};
ghost use Rattle.warehouse.specs.Session.{KeepsContent, SubmitRefuses};
ghost use Rattle.warehouse.specs.Submitting.{BatchIsReady, WithOrWithout};

use crate::growing::GrowingBatch;
use crate::prepared::{Prepared, admission_of, cause_of};
use crate::session::Session;
use batch_admission::Admission;
use cube_model::limits::MOST_BATCH_ROWS;
use cube_model::{Fault, LineOrder};
use dimensions::Dims;
use sector_device::Sectors;
use std::alloc::Global;
use warehouse_root::{Layout, MODES_ID, Root, segment_id};
use wire::limits::MOST_OBJECTS;

impl<D: Sectors> Session<D> {
    /// Adds a batch, or answers the first cause to refuse it. Batches are numbered from 1.
    ///
    /// A batch that is admissible is refused for `Worn`, `Full`, `Memory` or `Device` alone.
    pub fn submit(&mut self, alloc: Global, number: u32, rows: &[LineOrder]) -> Result<(), Fault>
        // A crash at any point leaves the warehouse as it was, or with this batch if it is admissible.
        ensures leaves { MayLeave D.Sectors self.old self.new
            (λ w c. Represents c w ⊎ (AdmitsBatch w number rows.now × Represents c (loaded w rows.now))) }

        // Then with it, in one commit.
        ensures ok { OnOk result ((w : Warehouse) → IsAt D.Sectors self.old w
            → IsAt D.Sectors self.new (loaded w rows.now)
            × (D.keeps_word (device_of self.new) → AdmitsBatch w number rows.now)) }
        ensures once { OnOk result (CommitsOnce D.Sectors self.old self.new) }

        // After a refusal, unless the device failed, as it was at each moment.
        ensures refused { StaysIfRefused D.Sectors self.old self.new result }

        // When each error comes.
        ensures causes { IfErr result
            (λ fault. fault ≢ Device
            → ForItsWarehouse D.Sectors self.old self.new
            (λ w. SubmitRefuses D.Sectors self.old w number rows.now fault)) }
    {
        let batch = match self.grown(alloc, number, rows) {
            Ok(batch) => batch,
            Err(fault) => return Err(fault),
        };
        self.submit_batch(alloc, number, &batch)
    }

    // Puts a batch that was made ready.
    pub(crate) fn put(
        &mut self,
        alloc: Global,
        number: u32,
        prepared: Prepared,
    ) -> Result<(), Fault>
        requires fine { has_failed self.old ≡ false }
        requires few { length (content_of D.Sectors self.old).objects + 2 ≤ most_objects }
        requires ready { (rows : List LineOrder) × IsPrepared self.old.root number rows prepared }
        ensures leaves { (w : Warehouse) (rows : List LineOrder)
            → BatchIsReady D.Sectors self.old w number rows prepared
            → Leaves (disk_of D.Sectors self.old) (disk_of D.Sectors self.new) (WithOrWithout w number rows) }
        ensures ok { OnOk result ((w : Warehouse) (rows : List LineOrder)
            → BatchIsReady D.Sectors self.old w number rows prepared
            → IsAt D.Sectors self.new (loaded w rows)
            × (D.keeps_word (device_of self.new) → AdmitsBatch w number rows)) }
        ensures refused { IfErr result (λ fault. fault ≢ Device → (w : Warehouse) (rows : List LineOrder)
            → BatchIsReady D.Sectors self.old w number rows prepared
            → IsAt D.Sectors self.new w
            × Leaves (disk_of D.Sectors self.old) (disk_of D.Sectors self.new) (λ c. Represents c w)) }
        ensures once { OnOk result (CommitsOnce D.Sectors self.old self.new) }
        ensures kept { IfErr result (λ fault. fault ≢ Device → KeepsContent D.Sectors self.old self.new) }
        ensures causes { IfErr result (λ fault. fault ≢ Device → (w : Warehouse) (rows : List LineOrder)
            → BatchIsReady D.Sectors self.old w number rows prepared
            → D.keeps_word (device_of self.new) → SubmitRefuses D.Sectors self.old w number rows fault) }
        ensures failed { IsErrOf result Failed → ⊥ }
        ensures device { IsErrOf result Device → Breaks D.Sectors self.old self.new }
        ensures word { KeptBefore D.Sectors self.old self.new }
    {
        let (puts, count) = puts_of(number, &prepared);
        let layout = prepared.root.layout().number();
        match self.store.commit(
            alloc,
            &puts[..count],
            &[],
            prepared.root_bytes.as_slice(),
            layout,
        ) {
            Ok(()) => {
                let Prepared { more, root, .. } = prepared;
                self.root = root;
                if let Some(more) = more {
                    self.modes = more.modes;
                }
                Ok(())
            }
            Err(fault) => Err(fault),
        }
    }

    // Rows that may follow the batches that are there, as a batch that has grown, or the first cause to refuse them,
    // for which no memory is taken. No device call is made.
    fn grown(&self, alloc: Global, number: u32, rows: &[LineOrder]) -> Result<GrowingBatch, Fault>
        ensures fine { IfOk result (λ _. has_failed self.now ≡ false) }
        ensures grows { IfOk result (Grows self.now rows.now) }
        ensures refused { IfErr result
            (λ fault. ForItsWarehouse D.Sectors self.now self.now (λ w. (refusal_of w number rows.now ≡ Some fault)
            ⊎ ((fault ≡ Memory) × PassesChecks w number rows.now))) }
        ensures failed { IsErrOf result Failed ↔ (has_failed self.now ≡ true) }
        ensures device { IsErrOf result Device → ⊥ }
        ensures leaves { MayLeave D.Sectors self.now self.now (λ w c. Represents c w) }
    {
        self.can_put(2)?;
        check(&self.dims, &self.root, number, rows)?;
        let mut batch = self.begin_batch(alloc, rows.len())?;
        self.add_rows(alloc, &mut batch, rows)?;
        Ok(batch)
    }

    // Whether so many objects may be put, as far as that does not depend on what they are. No device call is made.
    pub(crate) fn can_put(&self, puts: usize) -> Result<(), Fault>
        requires { puts ≤ 4 }
        ensures fine { OnOk result (has_failed self.now ≡ false) }
        ensures few { OnOk result (length (content_of D.Sectors self.now).objects + puts ≤ most_objects) }
        ensures agrees { ForItsWarehouse D.Sectors self.now self.now (λ w. Agrees w self.now.dims.value self.now.root) }
        ensures represents { IfErr result (λ _. ForItsWarehouse D.Sectors self.now self.now (λ w. ⊥)) }
        ensures failed { IsErrOf result Failed ↔ (has_failed self.now ≡ true) }
        ensures device { IsErrOf result Device → ⊥ }
        ensures leaves { MayLeave D.Sectors self.now self.now (λ w c. Represents c w) }
    {
        if self.is_broken() {
            return Err(Fault::Failed);
        }
        if self.store.objects() as usize + puts > MOST_OBJECTS {
            return Err(Fault::BadLayout); // more than a warehouse has
        }
        Ok(())
    }
}

// What the commit of a batch that was made ready puts, and how many objects that is: the segment, and the ship modes
// where there are more.
fn puts_of(number: u32, prepared: &Prepared) -> ([(u32, &[u8]); 2], usize)
    requires { number ≤ most_batches }
    ensures puts { commits.puts_of (take result.1 result.0) ≡ prepared_puts number prepared.now }
    ensures within { result.1 ≤ length result.0 }
{
    let segment = (segment_id(number), prepared.segment.as_slice());
    match &prepared.more {
        Some(more) => ([segment, (MODES_ID, more.bytes.as_slice())], 2),
        None => ([segment, segment], 1),
    }
}

// Looks for the first cause to refuse rows as a further batch, as far as no memory is taken to find it: in the second
// layout ship modes and sums are left out.
fn check(dims: &Dims, root: &Root, number: u32, rows: &[LineOrder]) -> Result<(), Fault>
    ensures few { OnOk result (length rows.now ≤ most_batch_rows) }
    ensures model { (w : Warehouse) → w.rows ≡ dims.now → root_of w ≡ root.now
        → MatchResult result (λ _. PassesChecks w number rows.now)
        (λ fault. refusal_of w number rows.now ≡ Some fault) }
    ensures apart { IfErr result (λ fault. is_of_device fault ≡ false) }
{
    match first_refusal(dims, root, number, rows) {
        Ok(()) => Ok(()),
        Err(fault) => Err(cause_of(fault)),
    }
}

// The same, where the type of the answer does not say that no cause speaks of the device.
fn first_refusal(dims: &Dims, root: &Root, number: u32, rows: &[LineOrder]) -> Result<(), Fault>
    ensures few { OnOk result (length rows.now ≤ most_batch_rows) }
    ensures model { (w : Warehouse) → w.rows ≡ dims.now → root_of w ≡ root.now
        → MatchResult result (λ _. PassesChecks w number rows.now)
        (λ fault. refusal_of w number rows.now ≡ Some fault) }
{
    let mut admission = admission_of(root);
    match root.layout() {
        Layout::First => admission.admit(dims, number, rows),
        Layout::Second => check_early(&admission, dims, number, rows),
    }
}

// Looks for the first cause to refuse rows as a further batch, its ship modes and its sums apart.
fn check_early(
    admission: &Admission,
    dims: &Dims,
    number: u32,
    rows: &[LineOrder],
) -> Result<(), Fault>
    ensures few { OnOk result (length rows.now ≤ most_batch_rows) }
    ensures model { (batches : List (List LineOrder)) → HasAccepted admission.now batches
        → result_err result ≡ early_refusal dims.now batches number rows.now }
{
    admission.check_number(number)?;
    if rows.len() > MOST_BATCH_ROWS {
        return Err(Fault::TooManyRows);
    }
    match admission.findings().more(dims, rows).early_cause() {
        Some(fault) => Err(fault),
        None => Ok(()),
    }
}
