//! The commit of another root.
ghost use Rattle.std.specs.Prelude.{List, ℕ};
ghost use Rattle.std.specs.Prelude.{◌≡◌, ◌≢◌, ◌⊎◌, ◌<◌, ◌≤◌, [], All, false, length, IfErr, IsErrOf, OnErr, OnOk};
ghost use Rattle.cube_model.specs.declared.fault.Fault.TheVariants.{BadLayout, Device};
ghost use Rattle.cube_model.specs.declared.rows.DimRows.{DimRows};
ghost use Rattle.wire.specs.Limits.{most_objects};
ghost use Rattle.object_store.specs.Disk.{Leaves};
ghost use Rattle.object_store.specs.Store.{IsAsBefore, IsOneOf, Refuses, content_of, device_of, disk_of};
ghost use Rattle.object_store.specs.Store.{has_failed, room_of};
ghost use Rattle.warehouse_root.specs.Root.{root_spelling};
ghost use Rattle.warehouse_objects.specs.Loaded.{IsLoaded};
ghost use Rattle.stored_cuboids.specs.Calls.{CallsStore};
ghost use Rattle.stored_cuboids.specs.Nexts.{first_run};
ghost use Rattle.stored_cuboids.specs.Replacing.{content_replaced};

use cube_model::Fault;
use object_store::Store;
use sector_device::Sectors;
use std::alloc::Global;
use warehouse_root::{Layout, Root};
use wire::limits::MOST_OBJECTS;

// Commits another root of the same layout, and drops some runs. `BadLayout` where there are more objects than a store
// takes.
pub(crate) fn replace_root<D: Sectors>(
    alloc: Global,
    store: &mut Store<D>,
    root: &mut Root,
    next: Root,
    drops: &[u32],
) -> Result<(), Fault>
    requires fine { has_failed store.old ≡ false }
    requires runs { All (λ id. first_run ≤ id) drops.now }
    requires layout { next.layout ≡ root.old.layout }

    // A crash at any point leaves the content before or after.
    ensures leaves { Leaves (disk_of D.Sectors store.old) (disk_of D.Sectors store.new)
        (IsOneOf (content_of D.Sectors store.old) (content_replaced next drops.now (content_of D.Sectors store.old))) }

    // Then the content after.
    ensures ok { OnOk result (D.keeps_word (device_of store.new)
        → content_of D.Sectors store.new ≡ content_replaced next drops.now (content_of D.Sectors store.old)) }
    ensures root { OnOk result (root.new ≡ next) }
    ensures loaded { OnOk result (D.keeps_word (device_of store.new) → (rows : DimRows) (modes : List (List ℕ))
        → IsLoaded (content_of D.Sectors store.old) rows modes root.old
        → IsLoaded (content_of D.Sectors store.new) rows modes root.new) }

    // What a refusal leaves, and when it comes.
    ensures kept { OnErr result (root.new ≡ root.old) }
    ensures refused { IfErr result (λ fault. fault ≢ Device → IsAsBefore D.Sectors store.old store.new) }
    ensures causes { IfErr result
        (λ fault. fault ≢ Device
        → ((fault ≡ BadLayout) × (most_objects < length (content_of D.Sectors store.old).objects))
        ⊎ Refuses (content_of D.Sectors store.old) (room_of store.old) [] drops.now (root_spelling next) fault) }
    ensures calls { CallsStore D.Sectors (IsErrOf result) store.old store.new }
{
    if store.objects() as usize > MOST_OBJECTS {
        return Err(Fault::BadLayout);
    }
    let bytes = match next.encode(alloc) {
        Ok(bytes) => bytes,
        Err(fault) => return Err(fault),
    };
    let layout = next.layout().number();
    match store.commit(alloc, &[], drops, bytes.as_slice(), layout) {
        Ok(()) => {
            *root = next;
            Ok(())
        }
        Err(fault) => Err(fault),
    }
}
