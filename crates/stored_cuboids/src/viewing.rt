//! The commit that chooses which cuboids are stored.
ghost use Rattle.std.specs.Prelude.{◌≡◌, ◌≢◌, ◌⊎◌, ◌≤◌, ◌==◌, ◌+◌, [], false, length, IfErr, IfOk, IsErrOf, OnErr};
ghost use Rattle.std.specs.Prelude.{OnOk, IsOkUnless};
ghost use Rattle.std.specs.List.{find};
ghost use Rattle.cube_model.specs.declared.fault.Fault.TheVariants.{Device, Memory};
ghost use Rattle.object_store.specs.Disk.{Leaves};
ghost use Rattle.object_store.specs.Store.{IsAsBefore, Refuses, content_of, device_of, disk_of, has_failed};
ghost use Rattle.object_store.specs.Store.{room_of};
ghost use Rattle.warehouse_root.specs.Limits.{most_cuboids};
ghost use Rattle.warehouse_root.specs.Root as roots;
ghost use Rattle.warehouse_objects.specs.Represents.{Represents, root_of, said_below, said_or_new, said_with};
ghost use Rattle.warehouse_objects.specs.Warehouse.{dropped_ids, is_among, with_views};
ghost use Rattle.stored_cuboids.specs.Calls.{CallsStore};
ghost use Rattle.stored_cuboids.specs.Keeping.{ForStored, StaysLoaded, StoreAt};
ghost use Rattle.stored_cuboids.specs.Replacing.{dropped_of};

use crate::replacing::replace_root;
use cube_model::Fault;
use lattice::View;
use object_store::Store;
use sector_device::Sectors;
use std::alloc::Global;
use warehouse_root::{Root, StoredCuboid, push_run_ids};

/// Stores the cuboids of some views, and no others, in one commit: a stored cuboid of one of them stays as it is,
/// another one holds no batch yet, and the target becomes 0. At most 16 views; those that the layout lacks are
/// left out.
///
/// `Full` where the store has no room, and `Worn` at the last generation: then all is as before, as it is where memory
/// is missing. `Device` where the device fails.
pub fn set_views<D: Sectors>(
    alloc: Global,
    store: &mut Store<D>,
    root: &mut Root,
    views: &[View],
) -> Result<(), Fault>
    requires fine { has_failed store.old ≡ false }
    requires few { length views.now ≤ most_cuboids }

    // A crash at any point leaves the warehouse before or after.
    ensures leaves { ForStored D.Sectors store.old root.old
        (λ w. Leaves (disk_of D.Sectors store.old) (disk_of D.Sectors store.new)
        (λ c. Represents c w ⊎ Represents c (with_views w views.now))) }

    // Then the warehouse after.
    ensures ok { OnOk result
        (ForStored D.Sectors store.old root.old (λ w. StoreAt D.Sectors store.new root.new (with_views w views.now))) }
    ensures once { OnOk result (D.keeps_word (device_of store.new)
        → (content_of D.Sectors store.new).generation ≡ (content_of D.Sectors store.old).generation + 1) }

    // What a refusal leaves, and when it comes.
    ensures refused { IfErr result
        (λ fault. fault ≢ Device
        → ForStored D.Sectors store.old root.old
        (λ w. StoreAt D.Sectors store.new root.new w
        × Leaves (disk_of D.Sectors store.old) (disk_of D.Sectors store.new) (λ c. Represents c w))) }
    ensures kept { OnErr result (root.new ≡ root.old) }
    ensures as_before { IfErr result (λ fault. fault ≢ Device → IsAsBefore D.Sectors store.old store.new) }
    ensures causes { IfErr result
        (λ fault. fault ≢ Device
        → ForStored D.Sectors store.old root.old (λ w. D.keeps_word (device_of store.new)
        → Refuses (content_of D.Sectors store.old) (room_of store.old) [] (dropped_ids w views.now)
        (roots.root_spelling (root_of (with_views w views.now))) fault)) }
    ensures calls { CallsStore D.Sectors (IsErrOf result) store.old store.new }

    // Also after an error.
    ensures loaded { StaysLoaded D.Sectors store.old store.new root.old root.new }
{
    let drops = match dropped(alloc, root.cuboids(), views) {
        Ok(drops) => drops,
        Err(fault) => return Err(fault),
    };
    let next = match viewed(alloc, root, views) {
        Ok(next) => next,
        Err(fault) => return Err(fault),
    };
    match replace_root(alloc, store, root, next, drops.as_slice()) {
        Ok(()) => Ok(()),
        Err(fault) => Err(fault),
    }
}

// The root with the cuboids of some views, and no others.
fn viewed(alloc: Global, root: &Root, views: &[View]) -> Result<Root, Fault>
    requires few { length views.now ≤ most_cuboids }
    ensures ok { IfOk result (λ next. next
        ≡ roots.with_cuboids (said_with root.now.layout views.now root.now.cuboids) root.now) }
    ensures memory { IsOkUnless result Memory }
{
    let cuboids = said_below(alloc, root.layout().views(), views, root.cuboids())?;
    root.with_cuboids(alloc, cuboids)
}

// What the root says of the cuboids of those numbers below a count of which there is a view among some.
fn said_below(
    alloc: Global,
    count: u16,
    views: &[View],
    cuboids: &[StoredCuboid],
) -> Result<Vec<StoredCuboid>, Fault>
    ensures ok { IfOk result (λ said. said.items ≡ said_below count views.now cuboids.now) }
    ensures memory { IsOkUnless result Memory }
{
    let mut said = Vec::new(alloc);
    for number in 0..count {
        if is_among(views, number) {
            said.push(said_or_new(cuboids, number))?;
        }
    }
    Ok(said)
}

// The cuboid of a number as it is, or one that holds no batch.
fn said_or_new(cuboids: &[StoredCuboid], number: u16) -> StoredCuboid
    ensures { result ≡ said_or_new number (find (λ cuboid. cuboid.view == number) cuboids.now) }
{
    match cuboids.iter().find(|cuboid| cuboid.view == number) {
        Some(cuboid) => *cuboid,
        None => StoredCuboid {
            view: number,
            runs: 0,
            mark: 0,
            cells: 0,
        },
    }
}

// The ids of the runs of the cuboids of other views.
fn dropped(alloc: Global, cuboids: &[StoredCuboid], views: &[View]) -> Result<Vec<u32>, Fault>
    ensures ok { IfOk result (λ drops. drops.items ≡ dropped_of views.now cuboids.now) }
    ensures memory { IsOkUnless result Memory }
{
    let mut drops = Vec::new(alloc);
    for cuboid in cuboids {
        if !is_among(views, cuboid.view) {
            push_run_ids(&mut drops, *cuboid)?;
        }
    }
    Ok(drops)
}

// Whether the view of a number is among some.
fn is_among(views: &[View], number: u16) -> bool
    ensures { result ≡ is_among views.now number }
{
    views.iter().any(|view| view.index() == number)
}
