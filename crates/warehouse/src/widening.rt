//! What an addition of dimension rows puts on the device, made ready before the first device call.
ghost use Rattle.std.specs.Prelude.{◌≡◌, ◌⊎◌, ◌++◌, ◌<◌, false, Some, IfOk, IfErr, OnOk, IsOkUnless};
ghost use Rattle.cube_model.specs.declared.fault.Fault.TheVariants.{Memory};
ghost use Rattle.cube_model.specs.declared.rows.DimRows as dim_rows;
ghost use Rattle.cube_model.specs.Validity.{HaveShortTexts};
ghost use Rattle.dimensions.specs.Added.{addition_cause, joined};
ghost use Rattle.dimensions.specs.Shown.{AreStorable};
ghost use Rattle.stored_rows.specs.Added.{put_of, widening_puts};
ghost use Rattle.object_store.specs.Commit as commits;
ghost use Rattle.warehouse_root.specs.Limits.{most_additions};
ghost use Rattle.warehouse.specs.Refusing.{is_of_device};
ghost use Rattle.warehouse.specs.Widening.{IsWidening, shown_puts};

use crate::prepared::cause_of;
use crate::session::shared;
use cube_model::{Axis, DimRows, Fault};
use dimension_objects::encode;
use dimensions::Dims;
use std::alloc::Global;
use std::rc::Rc;
use warehouse_root::Root;

/// The most objects that an addition puts: one for each dimension.
pub(crate) const MOST_PUTS: usize = 4;

/// An object with its id.
#[derive(Drop)]
pub(crate) struct NewObject {
    pub(crate) id: u32,
    pub(crate) bytes: Vec<u8>,
}

/// The dimensions with the rows, the objects of those that have new ones, and the root that counts the addition.
#[derive(Drop)]
pub(crate) struct Widening {
    pub(crate) dims: Rc<Dims>,
    pub(crate) root: Root,
    pub(crate) root_bytes: Vec<u8>,
    pub(crate) objects: Vec<NewObject>,
}

// The addition of rows to dimensions, or the first cause to refuse them. None speaks of the device.
pub(crate) fn widen(
    alloc: Global,
    dims: &Dims,
    root: &Root,
    rows: &DimRows,
) -> Result<Widening, Fault>
    requires few { root.now.additions < most_additions }
    requires short { HaveShortTexts rows.now }
    ensures ok { IfOk result (IsWidening dims.now root.now rows.now) }
    ensures err { IfErr result (λ fault. (fault ≡ Memory) ⊎ (addition_cause dims.now rows.now ≡ Some fault)) }
    ensures apart { IfErr result (λ fault. is_of_device fault ≡ false) }
{
    match dims.with_rows(alloc, rows) {
        Ok(wider) => Widening::of(alloc, wider, root, rows),
        Err(fault) => Err(cause_of(fault)),
    }
}

impl Widening {
    // That of dimensions whose last rows are new.
    fn of(alloc: Global, dims: Dims, root: &Root, rows: &DimRows) -> Result<Widening, Fault>
        requires few { root.now.additions < most_additions }
        ensures ok { IfOk result (λ wider. (old : dim_rows.DimRows) → dims ≡ joined old rows.now
            → AreStorable (joined old rows.now) → IsWidening old root.now rows.now wider) }
        ensures memory { IsOkUnless result Memory }
    {
        let root = root.with_addition(alloc)?;
        let root_bytes = root.encode(alloc)?;
        let objects = new_objects(alloc, &dims, rows)?;
        let dims = shared(alloc, dims)?;
        Ok(Widening {
            dims,
            root,
            root_bytes,
            objects,
        })
    }
}

// The objects of the dimensions that have new rows.
fn new_objects(alloc: Global, dims: &Dims, rows: &DimRows) -> Result<Vec<NewObject>, Fault>
    ensures ok { IfOk result (λ objects. (old : dim_rows.DimRows) → dims.now ≡ joined old rows.now
        → shown_puts objects.items ≡ widening_puts old rows.now) }
    ensures memory { IsOkUnless result Memory }
{
    let mut objects = Vec::with_capacity(alloc, MOST_PUTS)?;
    push_object(
        alloc,
        &mut objects,
        dims,
        Axis::Customer,
        1,
        rows.customers.len(),
    )?;
    push_object(
        alloc,
        &mut objects,
        dims,
        Axis::Supplier,
        2,
        rows.suppliers.len(),
    )?;
    push_object(alloc, &mut objects, dims, Axis::Part, 3, rows.parts.len())?;
    push_object(alloc, &mut objects, dims, Axis::Date, 4, rows.dates.len())?;
    Ok(objects)
}

// Adds the object of a dimension that has so many new rows, if it has any.
fn push_object(
    alloc: Global,
    objects: &mut Vec<NewObject>,
    dims: &Dims,
    axis: Axis,
    id: u32,
    count: usize,
) -> Result<(), Fault>
    ensures ok { OnOk result
        (shown_puts objects.new.items ≡ shown_puts objects.old.items ++ put_of dims.now axis id count) }
    ensures memory { IsOkUnless result Memory }
{
    if count == 0 {
        return Ok(());
    }
    let bytes = encode(alloc, dims, axis)?;
    objects.push(NewObject { id, bytes })?;
    Ok(())
}

// Objects as a commit takes them.
pub(crate) fn puts_of(alloc: Global, objects: &[NewObject]) -> Result<Vec<(u32, &[u8])>, Fault>
    ensures ok { IfOk result (λ puts. commits.puts_of puts.items ≡ shown_puts objects.now) }
    ensures memory { IsOkUnless result Memory }
{
    let mut puts = Vec::with_capacity(alloc, objects.len())?;
    for object in objects {
        puts.push((object.id, object.bytes.as_slice()))?;
    }
    Ok(puts)
}
