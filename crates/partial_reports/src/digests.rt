//! The digest of dimension rows.
ghost use Rattle.std.specs.Prelude.{◌≡◌, ◌++◌, ℕ, List, IfOk, OnOk, IsOkUnless};
ghost use Rattle.sha2.specs.Hashers.{Holds256};
ghost use Rattle.partial_reports.specs.Dimensions.{digest_of, dimension_object};

use cube_model::{Axis, Fault};
use dimension_objects::encode;
use dimensions::Dims;
use sha2::{Digest, Sha256};
use std::alloc::Global;

/// The SHA-256 of the four dimensions as a warehouse stores them: customers, suppliers, parts, dates. The same rows
/// have the same digest wherever they are. It can only fail when out of memory.
pub fn digest_of(alloc: Global, dims: &Dims) -> Result<[u8; 32], Fault>
    ensures ok { IfOk result (λ digest. digest ≡ digest_of dims.now) }
    ensures only { IsOkUnless result Fault.Memory }
{
    let mut hasher = Sha256::new();
    add_object(alloc, &mut hasher, dims, Axis::Customer)?;
    add_object(alloc, &mut hasher, dims, Axis::Supplier)?;
    add_object(alloc, &mut hasher, dims, Axis::Part)?;
    add_object(alloc, &mut hasher, dims, Axis::Date)?;
    Ok(hasher.finalize())
}

// Adds the bytes of a dimension to what is digested.
fn add_object(alloc: Global, hasher: &mut Sha256, dims: &Dims, axis: Axis) -> Result<(), Fault>
    ensures ok { OnOk result ((bytes : List ℕ) → Holds256 hasher.old bytes
        → Holds256 hasher.new (bytes ++ dimension_object dims.now axis)) }
    ensures only { IsOkUnless result Fault.Memory }
{
    let bytes = encode(alloc, dims, axis)?;
    hasher.update(bytes.as_slice());
    Ok(())
}
