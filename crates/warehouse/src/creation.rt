//! Making a warehouse on a device without one.
ghost use Rattle.std.specs.Prelude.{IfOk, IfErr};
ghost use Rattle.warehouse_root.specs.declared.layout.Layout.TheVariants.{First};
ghost use Rattle.warehouse.specs.Beginning.{IsBeginning};
ghost use Rattle.warehouse.specs.Creating.{IsCreated, MakesStore, RefusesToMake};

use crate::beginning::Beginning;
use crate::session::{Session, shared};
use cube_model::Fault;
use dimensions::Dims;
use object_store::Store;
use sector_device::Sectors;
use std::alloc::Global;
use std::rc::Rc;
use warehouse_objects::ShipModes;
use warehouse_root::{Layout, MODES_ID};

/// Makes a warehouse of the first layout without batches on a device without one, as `create_as` does.
pub fn create<D: Sectors>(alloc: Global, device: D, dims: Dims) -> Result<Session<D>, (Fault, D)>
    ensures ok { IfOk result (IsCreated D.Sectors device First dims) }
    ensures refused { IfErr result (λ e. RefusesToMake D.Sectors device First dims e.0 e.1) }
{
    create_as(alloc, device, dims, Layout::First)
}

/// Makes a warehouse of a layout without batches on a device without one. A refusal hands the device back.
pub fn create_as<D: Sectors>(
    alloc: Global,
    device: D,
    dims: Dims,
    layout: Layout,
) -> Result<Session<D>, (Fault, D)>
    // Where no image at the start has a valid superblock: until the end an image has none, or represents the warehouse.
    // Then the session is at the warehouse of no batch, and every image represents it. It succeeds only where reads
    // show no valid superblock at the start.
    ensures ok { IfOk result (IsCreated D.Sectors device layout dims) }

    // When each error comes, and what the device is then. Where reads show a valid superblock, no sector is written.
    ensures refused { IfErr result (λ e. RefusesToMake D.Sectors device layout dims e.0 e.1) }
{
    let beginning = match Beginning::of(alloc, &dims, layout) {
        Ok(beginning) => beginning,
        Err(fault) => return Err((fault, device)),
    };
    let dims = match shared(alloc, dims) {
        Ok(dims) => dims,
        Err(fault) => return Err((fault, device)),
    };
    match make_store(alloc, device, &dims, layout, &beginning) {
        Ok(store) => Ok(Session {
            store,
            dims,
            modes: ShipModes::none(alloc),
            root: beginning.root,
        }),
        Err(e) => Err(e),
    }
}

// Makes the store of a warehouse without batches from what was made ready for it. A refusal hands the device back.
fn make_store<D: Sectors>(
    alloc: Global,
    device: D,
    dims: &Rc<Dims>,
    layout: Layout,
    beginning: &Beginning,
) -> Result<Store<D>, (Fault, D)>
    requires begins { IsBeginning layout dims.now.value beginning.now }
    ensures ok { IfOk result (MakesStore D.Sectors device layout dims.now.value beginning.now.root) }
    ensures refused { IfErr result (λ e. RefusesToMake D.Sectors device layout dims.now.value e.0 e.1) }
{
    let puts = [
        (1, beginning.customers.as_slice()),
        (2, beginning.suppliers.as_slice()),
        (3, beginning.parts.as_slice()),
        (4, beginning.dates.as_slice()),
        (MODES_ID, beginning.modes.as_slice()), // in the second layout alone
    ];
    let count = layout.dimensions() as usize;
    Store::create(
        alloc,
        device,
        &puts[..count],
        beginning.root_bytes.as_slice(),
        layout.number(),
    )
}
