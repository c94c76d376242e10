//! A batch that grows by rows until it is submitted.
ghost use Rattle.std.specs.Prelude.{◌≡◌, ◌≢◌, ◌≤◌, ◌<◌, ◌↔◌, ◌++◌, [], List, None, true, false, length, IfErr, IfNone};
ghost use Rattle.std.specs.Prelude.{IfOk, IfSome, IsErrOf, IsOkUnless, MatchResult, OnOk, Some, ◌+◌};
ghost use Rattle.batch_admission.specs.Found.{cause_of, found_in};
ghost use Rattle.cube_model.specs.declared.fault.Fault.TheVariants.{Device, Failed, Memory};
ghost use Rattle.cube_model.specs.declared.rows.DimRows.{DimRows};
ghost use Rattle.cube_model.specs.declared.rows.LineOrder.{LineOrder};
ghost use Rattle.column_segment.specs.Segment.{FitColumns, IsBatch, segment_of};
ghost use Rattle.cube_model.specs.Admission.{early_refusal, long_text};
ghost use Rattle.cube_model.specs.Limits.{most_batch_rows};
ghost use Rattle.object_store.specs.Disk.{Leaves};
ghost use Rattle.warehouse.specs.Growing.{IsGrown};
ghost use Rattle.warehouse.specs.Prepared.{AddsModes, Admitted, CanBePut, ChecksModes, IsPrepared, MayFollow, Prepares};
ghost use Rattle.warehouse.specs.Refusing.{is_of_device};
ghost use Rattle.warehouse.specs.Session.{CommitsOnce, IsAt, MayLeave, StaysIfRefused};
ghost use Rattle.warehouse.specs.Session.{SubmitRefuses, content_of};
ghost use Rattle.warehouse.specs.Session.{device_of, disk_of, has_failed};
ghost use Rattle.warehouse.specs.Submitting.{WithOrWithout};
ghost use Rattle.warehouse_objects.specs.Facts.{AdmitsBatch};
ghost use Rattle.warehouse_objects.specs.Represents.{Represents, root_of};
ghost use Rattle.warehouse_objects.specs.Warehouse.{Warehouse, loaded, ship_modes_of};
ghost use Rattle.warehouse_root.specs.declared.layout.Layout.TheVariants.{Second};
ghost use Rattle.warehouse_root.specs.Modes.{kept_modes};
ghost use Rattle.warehouse_root.specs.Root.{AreProperTotals, PlainRoot};
ghost use Rattle.wire.specs.Limits.{most_objects};

use crate::prepared::{MoreModes, Prepared, admission_of, cause_of};
use crate::session::Session;
use batch_admission::Findings;
use column_segment::BatchColumns;
use cube_model::{Fault, LineOrder, Totals};
use dimensions::Dims;
use sector_device::Sectors;
use std::alloc::Global;
use warehouse_objects::ShipModes;
use warehouse_root::{Layout, Root};

/// A batch that grows by rows until it is submitted to the session that began it, or compared with one that is stored.
/// Its rows are checked and written as columns as they come, and are not kept.
pub struct GrowingBatch {
    pub(crate) found: Findings,
    pub(crate) columns: BatchColumns,
}

// Written out, so that a proof has one call to follow where one is let go.
impl Drop for GrowingBatch {
    fn drop(self) {
        let GrowingBatch {
            found: _,
            columns: _,
        } = self;
    }
}

impl GrowingBatch {
    ghost use Rattle.warehouse.specs.Growing.{HasRoomFor};

    /// How many rows it has.
    pub fn row_count(&self) -> u32
        ensures count { (dimensions : DimRows) (root : PlainRoot) (rows : List LineOrder)
            → IsGrown dimensions root rows self.now → result ≡ length rows }
        ensures few { result ≤ most_batch_rows }
    {
        self.found.row_count()
    }

    /// The first cause in its rows so far to refuse it: a text that is too long, an unknown key, or a sum past its
    /// limit.
    pub fn cause(&self) -> Option<Fault>
        ensures { result ≡ cause_of self.now.found }
    {
        self.found.cause()
    }

    // A batch of no row after those of a root, with room for so many.
    fn after(alloc: Global, root: &Root, rows: usize) -> Result<GrowingBatch, Fault>
        ensures ok { IfOk result (λ batch. (dimensions : DimRows) → IsGrown dimensions root.now [] batch) }
        ensures memory { IsOkUnless result Memory }
    {
        let columns = BatchColumns::new(alloc, rows)?;
        let found = admission_of(root).findings();
        Ok(GrowingBatch { found, columns })
    }

    // Looks at further rows, and adds them unless a text is too long to be stored.
    fn push(&mut self, alloc: Global, dims: &Dims, rows: &[LineOrder]) -> Result<(), Fault>
        requires few { (root : PlainRoot) × HasRoomFor dims.now root (length rows.now) self.old }
        ensures ok { OnOk result ((root : PlainRoot) (before : List LineOrder) → IsGrown dims.now root before self.old
            → IsGrown dims.now root (before ++ rows.now) self.new) }
        ensures memory { IsOkUnless result Memory }
    {
        self.found = self.found.more(dims, rows);
        if self.found.has_long_text() {
            return Ok(());
        }
        self.columns.push(alloc, rows)
    }

    // The bytes of the batch of a number. Nothing where a text is too long to be stored.
    pub(crate) fn segment(&self, alloc: Global, number: u32) -> Result<Option<Vec<u8>>, Fault>
        requires grown { (dimensions : DimRows) × (root : PlainRoot) × (rows : List LineOrder)
            × IsGrown dimensions root rows self.now }
        ensures spelled { IfOk result (λ found. (dimensions : DimRows) (root : PlainRoot) (rows : List LineOrder)
            → IsGrown dimensions root rows self.now
            → IfSome found (λ bytes. (bytes.items ≡ segment_of number rows) × IsBatch rows × FitColumns rows)) }
        ensures long { IfOk result (λ found. (dimensions : DimRows) (root : PlainRoot) (rows : List LineOrder)
            → IsGrown dimensions root rows self.now
            → IfNone found (long_text 1 rows ≢ None)) }
        ensures memory { IsOkUnless result Memory }
    {
        if self.found.has_long_text() {
            return Ok(None);
        }
        Ok(Some(self.columns.encode(alloc, number)?))
    }

    // Makes the batch ready after those of a root and of their ship modes, or answers the first cause to refuse it, or
    // `Memory`.
    fn prepared(
        &self,
        alloc: Global,
        root: &Root,
        modes: &ShipModes,
        number: u32,
    ) -> Result<Prepared, Fault>
        requires grown { (dimensions : DimRows) × (rows : List LineOrder) × IsGrown dimensions root.now rows self.now }
        ensures ready { IfOk result (λ p. (dimensions : DimRows) (rows : List LineOrder)
            → IsGrown dimensions root.now rows self.now → IsPrepared root.now number rows p) }
        ensures model { (w : Warehouse) (rows : List LineOrder) → root_of w ≡ root.now → modes.now ≡ ship_modes_of w
            → IsGrown w.rows root.now rows self.now → Prepares w number rows result }
        ensures apart { IfErr result (λ fault. is_of_device fault ≡ false) }
    {
        let more = self.checked_modes(alloc, root, modes, number)?;
        let totals = admitted(root, number, &self.found)?;
        let segment = self.columns.encode(alloc, number)?;
        Prepared::with_segment(alloc, root, segment, more, self.row_count(), totals)
    }

    // The ship modes with those of the batch, if a layout keeps them and some are new, or the first cause to refuse the
    // batch, its sums apart.
    fn checked_modes(
        &self,
        alloc: Global,
        root: &Root,
        modes: &ShipModes,
        number: u32,
    ) -> Result<Option<MoreModes>, Fault>
        requires grown { (dimensions : DimRows) × (rows : List LineOrder) × IsGrown dimensions root.now rows self.now }
        ensures more { IfOk result (λ more. IfSome more (CanBePut root.now.layout)) }
        ensures model { (w : Warehouse) (rows : List LineOrder) → root_of w ≡ root.now → modes.now ≡ ship_modes_of w
            → IsGrown w.rows root.now rows self.now → ChecksModes w number rows result }
        ensures apart { IfErr result (λ fault. is_of_device fault ≡ false) }
    {
        match root.layout() {
            Layout::First => Ok(None),
            Layout::Second => {
                self.check_early(root, number)?;
                self.more_modes(alloc, modes)
            }
        }
    }

    // Looks for the first cause to refuse the batch, its ship modes and its sums apart. It takes no memory.
    fn check_early(&self, root: &Root, number: u32) -> Result<(), Fault>
        ensures model { (w : Warehouse) (rows : List LineOrder) → root_of w ≡ root.now
            → IsGrown w.rows root.now rows self.now
            → MatchResult result (λ _. early_refusal w.rows w.batches number rows ≡ None)
            (λ fault. early_refusal w.rows w.batches number rows ≡ Some fault) }
        ensures short { OnOk result (self.now.found.long_text ≡ None) }
        ensures few { OnOk result (self.now.found.row_count ≤ most_batch_rows) }
        ensures apart { IfErr result (λ fault. is_of_device fault ≡ false) }
    {
        if let Err(fault) = admission_of(root).check_number(number) {
            return Err(cause_of(fault));
        }
        match self.found.early_cause() {
            Some(fault) => Err(cause_of(fault)),
            None => Ok(()),
        }
    }

    // Ship modes with those of the batch, if some are new, or the first of these that is a cause to refuse the batch.
    fn more_modes(&self, alloc: Global, modes: &ShipModes) -> Result<Option<MoreModes>, Fault>
        requires grown { (dimensions : DimRows) × (root : PlainRoot) × (rows : List LineOrder)
            × IsGrown dimensions root rows self.now }
        requires short { self.now.found.long_text ≡ None }
        requires few { self.now.found.row_count ≤ most_batch_rows }
        ensures more { IfOk result (λ more. IfSome more (CanBePut Second)) }
        ensures model { (dimensions : DimRows) (root : PlainRoot) (earlier rows : List LineOrder)
            → IsGrown dimensions root rows self.now → modes.now ≡ kept_modes Second earlier
            → AddsModes earlier rows result }
        ensures apart { IfErr result (λ fault. is_of_device fault ≡ false) }
    {
        let (own, codes) = self.columns.ship_modes();
        let all = match modes.with_batch(alloc, own, codes) {
            Ok(all) => all,
            Err(fault) => return Err(cause_of(fault)),
        };
        if all.len() == modes.len() {
            return Ok(None);
        }
        let bytes = all.encode(alloc)?;
        Ok(Some(MoreModes { modes: all, bytes }))
    }
}

impl<D: Sectors> Session<D> {
    ghost use Rattle.warehouse.specs.Growing.{CanGrow, Grows, IsOfSession};

    /// A batch of no row yet, after those that are there, with room for so many rows. It can only fail when out of
    /// memory.
    pub fn begin_batch(&self, alloc: Global, rows: usize) -> Result<GrowingBatch, Fault>
        ensures ok { IfOk result (Grows self.now []) }
        ensures memory { IsOkUnless result Memory }
    {
        GrowingBatch::after(alloc, &self.root, rows)
    }

    /// Adds rows to a batch of this session, with which it has at most 65,536. A cause to refuse it is answered when it
    /// is submitted. It can only fail when out of memory.
    pub fn add_rows(
        &self,
        alloc: Global,
        batch: &mut GrowingBatch,
        rows: &[LineOrder],
    ) -> Result<(), Fault>
        requires few { CanGrow self.now (length rows.now) batch.old }
        ensures ok { OnOk result ((before : List LineOrder) → Grows self.now before batch.old
            → Grows self.now (before ++ rows.now) batch.new) }
        ensures memory { IsOkUnless result Memory }
    {
        batch.push(alloc, &self.dims, rows)
    }

    /// Adds a batch that has grown in this session, as `submit` does its rows.
    pub fn submit_batch(
        &mut self,
        alloc: Global,
        number: u32,
        batch: &GrowingBatch,
    ) -> Result<(), Fault>
        requires batch { IsOfSession self.old batch.now }

        // A crash at any point leaves the warehouse as it was, or with this batch if it is admissible.
        ensures leaves { (w : Warehouse) (rows : List LineOrder) → IsAt D.Sectors self.old w
            → Grows self.old rows batch.now
            → Leaves (disk_of D.Sectors self.old) (disk_of D.Sectors self.new) (WithOrWithout w number rows) }

        // Then with it, in one commit.
        ensures ok { OnOk result ((w : Warehouse) (rows : List LineOrder) → IsAt D.Sectors self.old w
            → Grows self.old rows batch.now
            → IsAt D.Sectors self.new (loaded w rows)
            × (D.keeps_word (device_of self.new) → AdmitsBatch w number rows)) }
        ensures once { OnOk result (CommitsOnce D.Sectors self.old self.new) }

        // After a refusal, unless the device failed, as it was at each moment.
        ensures refused { StaysIfRefused D.Sectors self.old self.new result }

        // When each error comes.
        ensures causes { IfErr result (λ fault. fault ≢ Device → (w : Warehouse) (rows : List LineOrder)
            → IsAt D.Sectors self.old w
            → Grows self.old rows batch.now → D.keeps_word (device_of self.new)
            → SubmitRefuses D.Sectors self.old w number rows fault) }
    {
        let prepared = match self.prepared_batch(alloc, number, batch) {
            Ok(prepared) => prepared,
            Err(fault) => return Err(fault),
        };
        self.put(alloc, number, prepared)
    }

    // What a batch that has grown puts on the device, or the first cause to refuse it. No device call is made.
    fn prepared_batch(
        &self,
        alloc: Global,
        number: u32,
        batch: &GrowingBatch,
    ) -> Result<Prepared, Fault>
        requires batch { IsOfSession self.now batch.now }
        ensures fine { IfOk result (λ _. has_failed self.now ≡ false) }
        ensures few { IfOk result (λ _. length (content_of D.Sectors self.now).objects + 2 ≤ most_objects) }
        ensures ready { IfOk result (λ p. (rows : List LineOrder) → Grows self.now rows batch.now
            → IsPrepared self.now.root number rows p) }
        ensures model { (w : Warehouse) (rows : List LineOrder) → IsAt D.Sectors self.now w
            → Grows self.now rows batch.now
            → D.keeps_word (device_of self.now) → Prepares w number rows result }
        ensures failed { IsErrOf result Failed ↔ (has_failed self.now ≡ true) }
        ensures device { IsErrOf result Device → ⊥ }
        ensures leaves { MayLeave D.Sectors self.now self.now (λ w c. Represents c w) }
    {
        self.can_put(2)?;
        batch.prepared(alloc, &self.root, &self.modes, number)
    }
}

// The totals with those of a further batch, by what was found in its rows, or the first cause to refuse it.
fn admitted(root: &Root, number: u32, found: &Findings) -> Result<Totals, Fault>
    ensures follows { IfOk result (λ _. (dimensions : DimRows) (rows : List LineOrder)
        → found.now ≡ found_in dimensions root.now.totals rows
        → MayFollow (length root.now.batches) number rows) }
    ensures clean { IfOk result (λ _. cause_of found.now ≡ None) }
    ensures proper { IfOk result AreProperTotals }
    ensures model { (w : Warehouse) (rows : List LineOrder) → root_of w ≡ root.now
        → found.now ≡ found_in w.rows root.now.totals rows
        → Admitted w number rows result }
    ensures apart { IfErr result (λ fault. is_of_device fault ≡ false) }
{
    let mut admission = admission_of(root);
    match admission.admit_found(number, found) {
        Ok(()) => Ok(admission.totals()),
        Err(fault) => Err(cause_of(fault)),
    }
}
