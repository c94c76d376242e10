//! What a submit puts on the device, made ready before the first device call.
ghost use Rattle.std.specs.Prelude.{◌≡◌, ◌<◌, ◌≤◌, false, length, IfOk, IsOkUnless};
ghost use Rattle.cube_model.specs.declared.fault.Fault.TheVariants.{Memory};
ghost use Rattle.cube_model.specs.Limits.{most_batch_rows, most_batches};
ghost use Rattle.batch_admission.specs.Accepted.{HasAccepted};
ghost use Rattle.warehouse_root.specs.Root.{AreProperTotals};
ghost use Rattle.warehouse_objects.specs.Represents.{root_of};
ghost use Rattle.warehouse_objects.specs.Warehouse.{Warehouse};
ghost use Rattle.warehouse.specs.Refusing.{is_of_device};

use batch_admission::Admission;
use cube_model::{Fault, Totals};
use std::alloc::Global;
use warehouse_objects::ShipModes;
use warehouse_root::Root;

/// Ship modes of which some are new, and their bytes.
#[derive(Drop)]
pub(crate) struct MoreModes {
    pub(crate) modes: ShipModes,
    pub(crate) bytes: Vec<u8>,
}

/// The segment of a further batch, the ship modes with its own where there are new ones, and the root with it.
#[derive(Drop)]
pub(crate) struct Prepared {
    pub(crate) segment: Vec<u8>,
    pub(crate) more: Option<MoreModes>,
    pub(crate) root: Root,
    pub(crate) root_bytes: Vec<u8>,
}

impl Prepared {
    ghost use Rattle.warehouse_root.specs.Root.{IsRoot, root_with_batch};

    // A segment of so many rows, ship modes, and the root with the rows and their totals.
    pub(crate) fn with_segment(
        alloc: Global,
        root: &Root,
        segment: Vec<u8>,
        more: Option<MoreModes>,
        rows: u32,
        totals: Totals,
    ) -> Result<Prepared, Fault>
        requires batches { length root.now.batches < most_batches }
        requires rows { rows ≤ most_batch_rows }
        requires totals { AreProperTotals totals }
        ensures segment { IfOk result (λ p. p.segment.items ≡ segment.items) }
        ensures more { IfOk result (λ p. p.more ≡ more) }
        ensures root { IfOk result (λ p. p.root ≡ root_with_batch rows totals root.now) }
        ensures spelled { IfOk result (λ p. IsRoot p.root_bytes.items p.root) }
        ensures memory { IsOkUnless result Memory }
    {
        let root = root.with_batch(alloc, rows, totals)?;
        let root_bytes = root.encode(alloc)?;
        Ok(Prepared {
            segment,
            more,
            root,
            root_bytes,
        })
    }
}

// The check of a further batch after those of a root.
pub(crate) fn admission_of(root: &Root) -> Admission
    ensures count { result.count ≡ length root.now.batches }
    ensures totals { result.totals ≡ root.now.totals }
    ensures represents { (w : Warehouse) → root_of w ≡ root.now → HasAccepted result w.batches }
{
    Admission::resume(root.batches().len() as u32, root.totals())
}

// The cause to refuse a batch. None speaks of the device.
pub(crate) fn cause_of(fault: Fault) -> Fault
    ensures cause { is_of_device fault ≡ false → result ≡ fault }
    ensures apart { is_of_device result ≡ false }
{
    match fault {
        Fault::Device => Fault::BadLayout,
        Fault::Failed => Fault::BadLayout,
        cause => cause,
    }
}
