//! A copy of dimension rows.
ghost use Rattle.std.specs.Prelude.{◌≡◌, [], IfOk, IsOkUnless};
ghost use Rattle.cube_model.specs.declared.fault.Fault.TheVariants.{Memory};

use cube_model::{DimRows, Fault, Items};
use dimensions::Dims;
use std::alloc::Global;

// The dimensions of the same rows. It can only fail when out of memory.
pub(crate) fn copied(alloc: Global, dims: &Dims) -> Result<Dims, Fault>
    ensures same { IfOk result (λ copy. copy ≡ dims.now) }
    ensures memory { IsOkUnless result Memory }
{
    let none = no_rows(alloc);
    dims.with_rows(alloc, &none)
}

// No row of any dimension.
fn no_rows(alloc: Global) -> DimRows
    ensures customers { result.customers ≡ [] }
    ensures suppliers { result.suppliers ≡ [] }
    ensures parts { result.parts ≡ [] }
    ensures dates { result.dates ≡ [] }
{
    DimRows {
        customers: Items::new(alloc),
        suppliers: Items::new(alloc),
        parts: Items::new(alloc),
        dates: Items::new(alloc),
    }
}
