//! Reading the root and the dimensions of a warehouse from a store.
ghost use Rattle.std.specs.Prelude.{◌≡◌, ◌⊎◌, ◌+◌, ◌^◌, ◌<◌, false, Some, None, IfErr, IfOk, IsErrOf};
ghost use Rattle.cube_model.specs.declared.fault.Fault.TheVariants.{BadLayout, Memory};
ghost use Rattle.cube_model.specs.declared.attr.Axis.TheVariants.{Customer, Supplier, Part, Date};
ghost use Rattle.cube_model.specs.declared.rows.DimRows.{DimRows};
ghost use Rattle.object_store.specs.Content.{bytes_of};
ghost use Rattle.object_store.specs.Store.{content_of, device_of, has_failed};
ghost use Rattle.warehouse_root.specs.Layouts.{layout_number};
ghost use Rattle.warehouse_root.specs.Modes.{AreModes};
ghost use Rattle.warehouse_root.specs.Root.{IsRoot, IsRootOf};
ghost use Rattle.dimensions.specs.Shown.{AreStorable};
ghost use Rattle.warehouse_objects.specs.Warehouse.{Warehouse};
ghost use Rattle.warehouse_objects.specs.Reads.{EndsReading, ForHeld, ReadsOnly};
ghost use Rattle.warehouse_objects.specs.Represents.{HasModes, HasRows, Represents, dimension_of, root_of};

use crate::ship_modes::ShipModes;
use cube_model::Fault;
use dimension_objects::decode;
use dimensions::Dims;
use object_store::Store;
use sector_device::Sectors;
use std::alloc::Global;
use warehouse_root::{Layout, MODES_ID, Root};

/// The root of the warehouse that the content of a store represents. `BadLayout` where it represents none, as far as
/// the root and the layout show it.
pub fn read_root<D: Sectors>(alloc: Global, store: &Store<D>) -> Result<Root, Fault>
    ensures ok { IfOk result (IsRoot (content_of D.Sectors store.now).root) }
    ensures layout { IfOk result (λ root. (content_of D.Sectors store.now).layout ≡ layout_number root.layout) }
    ensures found { IfOk result (λ root. (w : Warehouse) → Represents (content_of D.Sectors store.now) w
        → root ≡ root_of w) }
    ensures refused { IfErr result (λ fault. (fault ≡ Memory)
        ⊎ ((fault ≡ BadLayout) × ((w : Warehouse) → ¬ Represents (content_of D.Sectors store.now) w))) }
{
    let Some(layout) = Layout::of_number(store.layout()) else {
        return Err(Fault::BadLayout);
    };
    read_root_in(alloc, store, layout)
}

// The root of a store of a layout.
fn read_root_in<D: Sectors>(alloc: Global, store: &Store<D>, layout: Layout) -> Result<Root, Fault>
    requires layout { (content_of D.Sectors store.now).layout ≡ layout_number layout }
    ensures ok { IfOk result (IsRootOf layout (content_of D.Sectors store.now).root) }
    ensures found { IfOk result (λ root. (w : Warehouse) → Represents (content_of D.Sectors store.now) w
        → root ≡ root_of w) }
    ensures refused { IfErr result (λ fault. (fault ≡ Memory)
        ⊎ ((fault ≡ BadLayout) × ((w : Warehouse) → ¬ Represents (content_of D.Sectors store.now) w))) }
{
    Root::decode(alloc, layout, store.root())
}

/// The ship modes of the warehouse of a layout that the content of a store represents: none in the first layout, where
/// nothing is read. `BadLayout` where it represents none, as far as object 5 shows it.
pub fn read_modes<D: Sectors>(
    alloc: Global,
    store: &mut Store<D>,
    layout: Layout,
) -> Result<ShipModes, Fault>
    requires fine { has_failed store.old ≡ false }
    ensures ok { IfOk result (λ modes. D.keeps_word (device_of store.new)
        → HasModes (content_of D.Sectors store.old) layout modes) }
    ensures are { IfOk result AreModes }
    ensures refused { IsErrOf result BadLayout → D.keeps_word (device_of store.new) → (w : Warehouse)
        → w.layout ≡ layout → ¬ Represents (content_of D.Sectors store.old) w }

    // The content stays, at each moment.
    ensures reads { ReadsOnly D.Sectors store.old store.new result }
    ensures causes { IfErr result EndsReading }
{
    match layout {
        Layout::First => Ok(ShipModes::none(alloc)),
        Layout::Second => {
            let bytes = read_object(alloc, store, MODES_ID)?;
            ShipModes::decode(alloc, &bytes)
        }
    }
}

/// The dimensions of the warehouse that the content of a store represents. `BadLayout` where it represents none, as
/// far as objects 1 to 4 show it.
pub fn read_dims<D: Sectors>(alloc: Global, store: &mut Store<D>) -> Result<Dims, Fault>
    requires fine { has_failed store.old ≡ false }
    ensures ok { IfOk result (λ dims. D.keeps_word (device_of store.new)
        → HasRows (content_of D.Sectors store.old) dims) }
    ensures storable { IfOk result AreStorable }
    ensures found { IfOk result (λ dims. ForHeld D.Sectors store.old store.new (λ w. dims ≡ w.rows)) }
    ensures refused { IsErrOf result BadLayout → D.keeps_word (device_of store.new)
        → (w : Warehouse) → ¬ Represents (content_of D.Sectors store.old) w }

    // The content stays, at each moment.
    ensures reads { ReadsOnly D.Sectors store.old store.new result }
    ensures causes { IfErr result EndsReading }
{
    let (customers, suppliers) = read_two(alloc, store, 1)?;
    read_others(alloc, store, &customers, &suppliers)
}

// The dimensions of a store of which objects 1 and 2 were read. `BadLayout` where objects 3 and 4 are none that go with
// them.
fn read_others<D: Sectors>(
    alloc: Global,
    store: &mut Store<D>,
    customers: &[u8],
    suppliers: &[u8],
) -> Result<Dims, Fault>
    requires fine { has_failed store.old ≡ false }
    ensures ok { IfOk result (λ dims. D.keeps_word (device_of store.new)
        → bytes_of (content_of D.Sectors store.old) 1 ≡ Some customers.now
        → bytes_of (content_of D.Sectors store.old) 2 ≡ Some suppliers.now
        → HasRows (content_of D.Sectors store.old) dims) }
    ensures storable { IfOk result AreStorable }
    ensures refused { IsErrOf result BadLayout → D.keeps_word (device_of store.new)
        → bytes_of (content_of D.Sectors store.old) 1 ≡ Some customers.now
        → bytes_of (content_of D.Sectors store.old) 2 ≡ Some suppliers.now → (w : Warehouse)
        → ¬ Represents (content_of D.Sectors store.old) w }
    ensures reads { ReadsOnly D.Sectors store.old store.new result }
    ensures causes { IfErr result EndsReading }
{
    let (parts, dates) = read_two(alloc, store, 3)?;
    decoded(alloc, customers, suppliers, &parts, &dates)
}

// Objects with the ids from one on.
fn read_two<D: Sectors>(
    alloc: Global,
    store: &mut Store<D>,
    first: u32,
) -> Result<(Vec<u8>, Vec<u8>), Fault>
    requires fine { has_failed store.old ≡ false }
    requires fits { first + 1 < 2 ^ 32 }
    ensures found { IfOk result (λ two. D.keeps_word (device_of store.new)
        → (bytes_of (content_of D.Sectors store.old) first ≡ Some two.0.items)
        × (bytes_of (content_of D.Sectors store.old) (first + 1) ≡ Some two.1.items)) }
    ensures missing { IsErrOf result BadLayout → D.keeps_word (device_of store.new)
        → (bytes_of (content_of D.Sectors store.old) first ≡ None)
        ⊎ (bytes_of (content_of D.Sectors store.old) (first + 1) ≡ None) }
    ensures reads { ReadsOnly D.Sectors store.old store.new result }
    ensures causes { IfErr result EndsReading }
{
    let one = read_object(alloc, store, first)?;
    let other = read_object(alloc, store, first + 1)?;
    Ok((one, other))
}

/// The bytes of an object. `BadLayout` where there is none of that id.
pub fn read_object<D: Sectors>(
    alloc: Global,
    store: &mut Store<D>,
    id: u32,
) -> Result<Vec<u8>, Fault>
    requires fine { has_failed store.old ≡ false }
    ensures found { IfOk result (λ bytes. D.keeps_word (device_of store.new)
        → bytes_of (content_of D.Sectors store.old) id ≡ Some bytes.items) }
    ensures missing { IsErrOf result BadLayout → D.keeps_word (device_of store.new)
        → bytes_of (content_of D.Sectors store.old) id ≡ None }
    ensures reads { ReadsOnly D.Sectors store.old store.new result }
    ensures causes { IfErr result EndsReading }
{
    match store.get(alloc, id)? {
        Some(bytes) => Ok(bytes),
        None => Err(Fault::BadLayout),
    }
}

// The dimensions of four objects.
fn decoded(
    alloc: Global,
    customers: &[u8],
    suppliers: &[u8],
    parts: &[u8],
    dates: &[u8],
) -> Result<Dims, Fault>
    ensures ok { IfOk result (λ dims. (customers.now ≡ dimension_of dims Customer)
        × (suppliers.now ≡ dimension_of dims Supplier)
        × (parts.now ≡ dimension_of dims Part) × (dates.now ≡ dimension_of dims Date)) }
    ensures storable { IfOk result AreStorable }
    ensures refused { IfErr result
        (λ fault. (fault ≡ Memory) ⊎ ((fault ≡ BadLayout) × ((rows : DimRows) → AreStorable rows
        → customers.now ≡ dimension_of rows Customer → suppliers.now ≡ dimension_of rows Supplier
        → parts.now ≡ dimension_of rows Part → dates.now ≡ dimension_of rows Date → ⊥))) }
{
    decode(alloc, customers, suppliers, parts, dates)
}
