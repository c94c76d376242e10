//! Comparing a batch with the one that is stored under a number.
ghost use Rattle.std.specs.Prelude.{◌≡◌, ◌≢◌, ◌⊎◌, ◌↔◌, ◌≤◌, false, Some, List, length, option_map, IfErr, IfOk};
ghost use Rattle.std.specs.Prelude.{IfSome, IsErrOf, IsTrue};
ghost use Rattle.cube_model.specs.declared.fault.Fault.TheVariants.{Device, Memory};
ghost use Rattle.cube_model.specs.declared.rows.DimRows.{DimRows};
ghost use Rattle.cube_model.specs.declared.rows.LineOrder.{LineOrder};
ghost use Rattle.cube_model.specs.Limits.{most_batches};
ghost use Rattle.object_store.specs.Content.{bytes_of};
ghost use Rattle.object_store.specs.Store as stores;
ghost use Rattle.warehouse.specs.Comparing.{numbered};
ghost use Rattle.warehouse.specs.Growing.{Grows, IsGrown, IsOfSession};
ghost use Rattle.warehouse.specs.Reads.{OnlyReads};
ghost use Rattle.warehouse.specs.Session.{ForItsWarehouse, IsAt, device_of};
ghost use Rattle.warehouse_objects.specs.Reads.{ReadsOnly};
ghost use Rattle.warehouse_objects.specs.Represents.{Represents, root_of};
ghost use Rattle.warehouse_objects.specs.Warehouse.{Warehouse};
ghost use Rattle.wire.specs.Runs.{ReadsSource};

use crate::growing::GrowingBatch;
use crate::session::Session;
use cube_model::Fault;
use object_store::Store;
use sector_device::Sectors;
use std::alloc::Global;
use warehouse_root::{Root, segment_id};
use wire::{Source, read_part};

// How many bytes are compared together: a sector.
const PART: usize = 512;

impl<D: Sectors> Session<D> {
    /// How many rows the stored batch of a number has. Batches are numbered from 1.
    pub fn batch_rows(&self, number: u32) -> Option<u32>
        ensures { ForItsWarehouse D.Sectors self.now self.now
            (λ w. result ≡ option_map length (numbered w.batches number)) }
    {
        rows_of(&self.root, number)
    }

    /// Whether the stored batch of a number has exactly the rows of a batch that has grown in this session, in the same
    /// order. Where there is no batch of that number, or one with another count of rows, nothing is read.
    ///
    /// It can fail when out of memory, and where the device fails.
    pub fn has_batch(
        &mut self,
        alloc: Global,
        number: u32,
        batch: &GrowingBatch,
    ) -> Result<bool, Fault>
        requires batch { IsOfSession self.old batch.now }

        // It only reads: the warehouse stays as it is, at each moment, and after a failure nothing is done.
        ensures reads { OnlyReads D.Sectors (IsErrOf result) self.old self.new }

        // The answer is yes exactly where the batch of that number is this one.
        ensures answer { IfOk result (λ yes. (w : Warehouse) (rows : List LineOrder) → IsAt D.Sectors self.old w
            → Grows self.old rows batch.now
            → D.keeps_word (device_of self.new) → IsTrue yes ↔ (numbered w.batches number ≡ Some rows)) }

        // When each error comes.
        ensures refused { IfErr result (λ fault. fault ≢ Device → (w : Warehouse) → IsAt D.Sectors self.old w
            → fault ≡ Memory) }
    {
        if self.is_broken() {
            return Err(Fault::Failed);
        }
        match is_stored(alloc, &mut self.store, &self.root, number, batch) {
            Ok(yes) => Ok(yes),
            Err(fault) => Err(fault),
        }
    }
}

// How many rows a root says the batch of a number has.
fn rows_of(root: &Root, number: u32) -> Option<u32>
    ensures rows { result ≡ numbered root.now.batches number }
    ensures few { IfSome result (λ _. number ≤ most_batches) }
{
    let before = number.checked_sub(1)?;
    let rows = root.batches().get(before as usize)?;
    Some(*rows)
}

// Whether a store has under a number a batch with the rows of a batch that has grown after those of its root.
fn is_stored<D: Sectors>(
    alloc: Global,
    store: &mut Store<D>,
    root: &Root,
    number: u32,
    batch: &GrowingBatch,
) -> Result<bool, Fault>
    requires fine { stores.has_failed store.old ≡ false }
    requires batch { (dimensions : DimRows) × (rows : List LineOrder) × IsGrown dimensions root.now rows batch.now }
    ensures answer { IfOk result (λ yes. D.keeps_word (stores.device_of store.new)
        → (w : Warehouse) (dimensions : DimRows) (rows : List LineOrder)
        → Represents (stores.content_of D.Sectors store.old) w → root.now ≡ root_of w
        → IsGrown dimensions root.now rows batch.now
        → IsTrue yes ↔ (numbered w.batches number ≡ Some rows)) }
    ensures reads { ReadsOnly D.Sectors store.old store.new result }
    ensures causes { IfErr result (λ fault. (fault ≡ Memory) ⊎ (fault ≡ Device)) }
{
    if rows_of(root, number) != Some(batch.row_count()) {
        return Ok(false);
    }
    match batch.segment(alloc, number)? {
        Some(segment) => has_object(store, segment_id(number), segment.as_slice()),
        None => Ok(false), // no stored batch has such a text
    }
}

// Whether a store has an object of an id and of these bytes.
fn has_object<D: Sectors>(store: &mut Store<D>, id: u32, bytes: &[u8]) -> Result<bool, Fault>
    requires fine { stores.has_failed store.old ≡ false }
    ensures same { IfOk result (λ yes. D.keeps_word (stores.device_of store.new)
        → IsTrue yes ↔ (bytes_of (stores.content_of D.Sectors store.old) id ≡ Some bytes.now)) }
    ensures reads { ReadsOnly D.Sectors store.old store.new result }
    ensures causes { IfErr result (λ fault. fault ≡ Device) }
{
    has_text(store, id, bytes)
}

// Whether the text of an id is these bytes. It is read sector by sector, up to the first one that differs.
fn has_text<S: Source>(source: &mut S, id: u32, bytes: &[u8]) -> Result<bool, Fault>
    ensures same { IfOk result (λ yes. S.keeps_word source.new → IsTrue yes
        ↔ (S.texts source.old id ≡ Some bytes.now)) }
    ensures run { ReadsSource S.Source source.old source.new result }
{
    if source.total(id) != Some(bytes.len() as u64) {
        return Ok(false);
    }
    let mut buffer = [0; PART];
    let mut at = 0;
    while at < bytes.len() {
        let count = (bytes.len() - at).min(PART);
        let part = &mut buffer[..count];
        read_part(source, id, at as u64, part)?;
        let wanted = &bytes[at..at + count];
        if *part != *wanted {
            return Ok(false);
        }
        at += count;
    }
    Ok(true)
}
