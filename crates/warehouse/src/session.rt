//! A session of a warehouse.
ghost use Rattle.std.specs.Prelude.{◌≡◌, false, IfOk, IsOkUnless};
ghost use Rattle.cube_model.specs.declared.fault.Fault.TheVariants.{Memory};
ghost use Rattle.object_store.specs.Store as stores;
ghost use Rattle.warehouse_objects.specs.Represents.{Represents};
ghost use Rattle.warehouse_objects.specs.Loaded.{IsLoaded};
ghost use Rattle.warehouse_objects.proofs.Props.{props};

use cube_model::Fault;
use dimensions::Dims;
use object_store::Store;
use sector_device::Sectors;
use std::alloc::Global;
use std::rc::Rc;
use warehouse_objects::ShipModes;
use warehouse_root::Root;

/// A warehouse on a device, open for calls. It keeps the dimensions, the ship modes and the root in memory, and no
/// batch. The queries that it starts share the dimensions.
///
/// After `Device` it answers `Failed` to every call but `device` and `close`, and calls the device no more. It is to be
/// opened again.
pub struct Session<D: Sectors> {
    pub(crate) store: Store<D>,
    pub(crate) dims: Rc<Dims>,
    pub(crate) modes: ShipModes,
    pub(crate) root: Root,
    ghost loaded: { stores.has_failed store ≡ false → D.keeps_word (stores.device_of store)
        → IsLoaded (stores.content_of D.Sectors store) dims.value modes root } by { Prim.hlevel props },
}

// Written out, so that a proof has one call to follow where one is let go.
impl<D: Sectors + Drop> Drop for Session<D> {
    fn drop(self) {
        let Session {
            store: _,
            dims: _,
            modes: _,
            root: _,
        } = self;
    }
}

impl<D: Sectors> Session<D> {
    ghost use Rattle.warehouse.specs.Session.{MayLeave, has_failed, device_of};

    /// The device.
    pub fn device(&self) -> &D
        ensures { result.now ≡ device_of self.now }
    {
        self.store.device()
    }

    /// Gives the device back.
    pub fn close(self) -> D
        ensures { result ≡ device_of self }
    {
        let Session {
            store,
            dims: _,
            modes: _,
            root: _,
        } = self;
        store.close()
    }

    /// Whether the device failed in an earlier call. Until then each image represents the warehouse.
    pub fn is_broken(&self) -> bool
        ensures broken { result ≡ has_failed self.now }
        ensures leaves { MayLeave D.Sectors self.now self.now (λ w c. Represents c w) }
    {
        self.store.is_broken()
    }
}

// Dimensions that running queries can share.
pub(crate) fn shared(alloc: Global, dims: Dims) -> Result<Rc<Dims>, Fault>
    ensures ok { IfOk result (λ shared. shared.value ≡ dims) }
    ensures memory { IsOkUnless result Memory }
{
    match Rc::new(alloc, dims) {
        Ok(shared) => Ok(shared),
        Err(_) => Err(Fault::Memory),
    }
}
