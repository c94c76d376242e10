//! Which objects a store has.
ghost use Rattle.std.specs.Prelude.{◌≡◌, ◌↔◌, false, is_some, All, IfOk, IsTrue, IsOkUnless};
ghost use Rattle.cube_model.specs.declared.fault.Fault.{Fault};
ghost use Rattle.object_store.specs.Content.{bytes_of};
ghost use Rattle.object_store.specs.Store.{content_of, device_of};
ghost use Rattle.warehouse_objects.specs.Represents.{HasItsObjects};
ghost use Rattle.warehouse_objects.specs.Reads.{ForHeldOfRoot};

use cube_model::Fault;
use object_store::Store;
use sector_device::Sectors;
use std::alloc::Global;
use warehouse_root::Root;

/// Whether a store has just the objects that a root asks for. It can only fail when out of memory.
pub fn has_its_objects<D: Sectors>(
    alloc: Global,
    store: &Store<D>,
    root: &Root,
) -> Result<bool, Fault>
    ensures ok { IfOk result (λ has. D.keeps_word (device_of store.now) → IsTrue has
        ↔ HasItsObjects (content_of D.Sectors store.now) root.now) }

    // It does where the content represents a warehouse of that root.
    ensures represents { IfOk result
        (λ has. has ≡ false → ForHeldOfRoot D.Sectors store.now store.now root.now (λ w. ⊥)) }
    ensures memory { IsOkUnless result Fault.Memory }
{
    let ids = root.object_ids(alloc)?;
    if store.objects() as usize > ids.len() {
        return Ok(false);
    }
    Ok(has_each(store, &ids))
}

// Whether a store has an object at each of the ids.
fn has_each<D: Sectors>(store: &Store<D>, ids: &[u32]) -> bool
    ensures { D.keeps_word (device_of store.now)
        → IsTrue result ↔ All (λ id. IsTrue (is_some (bytes_of (content_of D.Sectors store.now) id))) ids.now }
{
    for id in ids {
        if store.size(*id).is_none() {
            return false;
        }
    }
    true
}
