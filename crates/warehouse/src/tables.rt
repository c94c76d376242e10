//! The dimension tables of a warehouse, its layout, and its ship modes.
ghost use Rattle.std.specs.Prelude.{◌≡◌};
ghost use Rattle.warehouse_objects.specs.Warehouse.{ship_modes_of};
ghost use Rattle.warehouse.specs.Choosing.{modes_counted};
ghost use Rattle.warehouse.specs.Session.{ForItsWarehouse};

use crate::session::Session;
use dimensions::Dims;
use sector_device::Sectors;
use warehouse_root::Layout;

impl<D: Sectors> Session<D> {
    /// The rows of the four dimensions. It makes no device call.
    pub fn dims(&self) -> &Dims
        ensures { ForItsWarehouse D.Sectors self.now self.now (λ w. result.now ≡ w.rows) }
    {
        &self.dims
    }

    /// The layout of what is on the device. It makes no device call.
    pub fn layout(&self) -> Layout
        ensures { ForItsWarehouse D.Sectors self.now self.now (λ w. result ≡ w.layout) }
    {
        self.root.layout()
    }

    /// How many ship modes there are, where ship mode is an axis. It makes no device call.
    pub fn ship_mode_count(&self) -> Option<u32>
        ensures { ForItsWarehouse D.Sectors self.now self.now (λ w. result ≡ modes_counted w.layout (ship_modes_of w)) }
    {
        match self.root.layout() {
            Layout::First => None,
            Layout::Second => Some(self.modes.len() as u32), // at most 65,535
        }
    }
}
