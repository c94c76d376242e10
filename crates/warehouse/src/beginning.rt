//! What a warehouse is made of, made ready before the first device call.
ghost use Rattle.std.specs.Prelude.{◌≡◌, IfOk, IsOkUnless};
ghost use Rattle.cube_model.specs.declared.fault.Fault.TheVariants.{Memory};
ghost use Rattle.dimensions.specs.Shown.{AreStorable};
ghost use Rattle.warehouse_objects.specs.Represents.{dimension_of};

use cube_model::{Axis, Fault};
use dimension_objects::encode;
use dimensions::Dims;
use std::alloc::Global;
use warehouse_objects::ShipModes;
use warehouse_root::{Layout, Root};

/// The bytes of the four dimensions and of no ship modes, and the root of no batch.
#[derive(Drop)]
pub(crate) struct Beginning {
    pub(crate) customers: Vec<u8>,
    pub(crate) suppliers: Vec<u8>,
    pub(crate) parts: Vec<u8>,
    pub(crate) dates: Vec<u8>,
    pub(crate) modes: Vec<u8>,
    pub(crate) root: Root,
    pub(crate) root_bytes: Vec<u8>,
}

impl Beginning {
    ghost use Rattle.warehouse.specs.Beginning.{IsBeginning};

    /// That of a warehouse of a layout with these dimensions.
    pub(crate) fn of(alloc: Global, dims: &Dims, layout: Layout) -> Result<Beginning, Fault>
        ensures ok { IfOk result (IsBeginning layout dims.now) }
        ensures memory { IsOkUnless result Memory }
    {
        let root = Root::new(alloc, layout);
        let root_bytes = root.encode(alloc)?;
        let (customers, suppliers) = two_encoded(alloc, dims, Axis::Customer, Axis::Supplier)?;
        let (parts, dates) = two_encoded(alloc, dims, Axis::Part, Axis::Date)?;
        let modes = ShipModes::none(alloc).encode(alloc)?;
        Ok(Beginning {
            customers,
            suppliers,
            parts,
            dates,
            modes,
            root,
            root_bytes,
        })
    }
}

// The bytes of two dimensions.
fn two_encoded(
    alloc: Global,
    dims: &Dims,
    first: Axis,
    second: Axis,
) -> Result<(Vec<u8>, Vec<u8>), Fault>
    ensures first { IfOk result (λ two. two.0.items ≡ dimension_of dims.now first) }
    ensures second { IfOk result (λ two. two.1.items ≡ dimension_of dims.now second) }
    ensures memory { IsOkUnless result Memory }
    ensures storable { AreStorable dims.now }
{
    Ok((encode(alloc, dims, first)?, encode(alloc, dims, second)?))
}
