//! Copying which cuboids a warehouse stores.
ghost use Rattle.std.specs.Prelude.{◌≡◌, ◌⊎◌, ◌≤◌, ℕ, List, length, map, IfErr, IfOk, OnOk};
ghost use Rattle.cube_model.specs.declared.fault.Fault.TheVariants.{BadLayout, Memory, TooManyCells};
ghost use Rattle.lattice.specs.Views.{index_of};
ghost use Rattle.object_store.specs.Disk.{Leaves};
ghost use Rattle.warehouse_root.specs.Limits.{most_cuboids};
ghost use Rattle.warehouse_objects.specs.Represents.{Represents};
ghost use Rattle.warehouse_objects.specs.Warehouse.{Cuboid, Warehouse, with_views};
ghost use Rattle.stored_cuboids.specs.Keeping.{IsKeptUp};
ghost use Rattle.warehouse.specs.Session.{IsAt, KeptBefore, MayLeave, device_of, disk_of};
ghost use Rattle.warehouse_jobs.specs.Copied.{AreBroughtOn, AreSaidOf, HoldsPart, IsCopy, IsCopyFault, with_first};

use cube_model::Fault;
use lattice::View;
use sector_device::Sectors;
use std::alloc::Global;
use warehouse::{MOST_CUBOIDS, Session, StoredCuboid};

// Stores the cuboids of the views of a warehouse in one that has its batches, and no cuboid, and brings them to all
// batches.
pub(crate) fn copy_cuboids<D: Sectors, E: Sectors>(
    alloc: Global,
    from: &Session<D>,
    to: &mut Session<E>,
) -> Result<(), Fault>
    // Then it is a copy, and until then it has the batches.
    ensures ok { OnOk result ((w : Warehouse) → IsAt D.Sectors from.now w
        → IsAt E.Sectors to.old (with_first w (length w.batches)) → D.keeps_word (device_of from.now)
        → (copy : Warehouse) × IsCopy w copy × IsAt E.Sectors to.new copy
        × (E.keeps_word (device_of to.new) → AreBroughtOn copy)) }
    ensures leaves { (w : Warehouse) → IsAt E.Sectors to.old (with_first w (length w.batches))
        → Leaves (disk_of E.Sectors to.old) (disk_of E.Sectors to.new) (HoldsPart w) }
    ensures refused { IfErr result (λ fault. (w : Warehouse) → IsAt D.Sectors from.now w
        → IsAt E.Sectors to.old (with_first w (length w.batches))
        → D.keeps_word (device_of from.now) → E.keeps_word (device_of to.new) → IsCopyFault fault) }
    ensures word { KeptBefore E.Sectors to.old to.new }
{
    let status = from.status()?;
    let views = views_in(alloc, &status.cuboids)?;
    put_views(alloc, to, views.as_slice())
}

// The views of the cuboids in places. `BadLayout` where a number is that of none.
fn views_in(
    alloc: Global,
    cuboids: &[Option<StoredCuboid>; MOST_CUBOIDS],
) -> Result<Vec<View>, Fault>
    ensures few { IfOk result (λ views. length views.items ≤ most_cuboids) }
    ensures views { IfOk result (λ views. (stored : List Cuboid) → AreSaidOf stored cuboids.now
        → views.items ≡ map (λ cuboid. cuboid.view) stored) }
    ensures refused { IfErr result (λ fault. (fault ≡ Memory) ⊎ ((fault ≡ BadLayout)
        × ((stored : List Cuboid) → AreSaidOf stored cuboids.now → ⊥))) }
{
    let mut views = Vec::new(alloc);
    for place in 0..MOST_CUBOIDS {
        match cuboids[place] {
            Some(said) => {
                let view = view_of(said.view)?;
                views.push(view)?;
            }
            None => return Ok(views),
        }
    }
    Ok(views)
}

// The view of a number. `BadLayout` where there is none.
fn view_of(number: u16) -> Result<View, Fault>
    ensures found { IfOk result (λ view. index_of view ≡ number) }
    ensures refused { IfErr result (λ fault. (fault ≡ BadLayout) × (512 ≤ number)) }
{
    match View::new(number) {
        Some(view) => Ok(view),
        None => Err(Fault::BadLayout),
    }
}

// Stores the cuboids of some views, and brings them to all batches.
fn put_views<E: Sectors>(alloc: Global, to: &mut Session<E>, views: &[View]) -> Result<(), Fault>
    requires few { length views.now ≤ most_cuboids }
    ensures ok { OnOk result ((w : Warehouse) → IsAt E.Sectors to.old w
        → (v : Warehouse) × IsKeptUp (with_views w views.now) v × IsAt E.Sectors to.new v
        × (E.keeps_word (device_of to.new) → AreBroughtOn v)) }
    ensures leaves { MayLeave E.Sectors to.old to.new
        (λ w c. Represents c w ⊎ ((v : Warehouse) × IsKeptUp (with_views w views.now) v × Represents c v)) }
    ensures refused { IfErr result (λ fault. (w : Warehouse) → IsAt E.Sectors to.old w → E.keeps_word (device_of to.new)
        → IsCopyFault fault) }
    ensures word { KeptBefore E.Sectors to.old to.new }
{
    to.set_views(alloc, views)?;
    bring_on(alloc, to)
}

// Brings each stored cuboid to all batches, but those whose view has too many cells.
fn bring_on<E: Sectors>(alloc: Global, to: &mut Session<E>) -> Result<(), Fault>
    ensures ok { OnOk result ((w : Warehouse) → IsAt E.Sectors to.old w
        → (v : Warehouse) × IsKeptUp w v × IsAt E.Sectors to.new v
        × (E.keeps_word (device_of to.new) → AreBroughtOn v)) }
    ensures leaves { MayLeave E.Sectors to.old to.new (λ w c. (v : Warehouse) × IsKeptUp w v × Represents c v) }
    ensures refused { IfErr result (λ fault. (w : Warehouse) → IsAt E.Sectors to.old w → E.keeps_word (device_of to.new)
        → IsCopyFault fault) }
    ensures word { KeptBefore E.Sectors to.old to.new }
{
    match to.upkeep(alloc) {
        Ok(()) => Ok(()),
        Err(fault) => unless_too_large(fault),
    }
}

// A fault, unless it says that a view has too many cells.
fn unless_too_large(fault: Fault) -> Result<(), Fault>
    ensures passed { OnOk result ((number : ℕ) × (fault ≡ TooManyCells number)) }
    ensures other { IfErr result (λ other. (other ≡ fault) × ((number : ℕ) → fault ≡ TooManyCells number → ⊥)) }
{
    match fault {
        Fault::TooManyCells { view: _ } => Ok(()),
        other => Err(other),
    }
}
