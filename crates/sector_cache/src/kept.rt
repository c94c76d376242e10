// The sectors that a cache keeps, as a list of the least recently used last.
ghost use Rattle.std.specs.Prelude.{◌≡◌, ◌+◌, ◌≤◌, ◌^◌, Some, None};
ghost use Rattle.std.specs.Bool.{OnTrue, OnFalse};
ghost use Rattle.sector_cache.specs.Kept.{kept_at, Keeps, Forgets, ForgetsRun, IsSameKept};

use lru::LruCache;

/// Numbers of sectors with their bytes.
pub(crate) type Kept = LruCache<u32, [u8; 512]>;

/// Copies what is kept of a sector, which then counts as the one used last.
pub(crate) fn copy_kept(kept: &mut Kept, i: u32, to: &mut [u8; 512]) -> bool
    ensures found { OnTrue result (kept_at kept.old.entries i ≡ Some to.new) }
    ensures absent { OnFalse result (kept_at kept.old.entries i ≡ None) }
    ensures same { IsSameKept kept.old.entries kept.new.entries }
{
    match kept.peek(&i) {
        Some(bytes) => *to = *bytes,
        None => return false,
    }
    kept.promote(&i);
    true
}

/// Keeps the bytes of a sector, or nothing of it where there is no memory.
pub(crate) fn keep(kept: &mut Kept, i: u32, bytes: &[u8; 512])
    ensures { Keeps i bytes.now kept.old.entries kept.new.entries }
{
    match kept.put(i, *bytes) {
        Ok(_) => {}
        // It was not kept, and is not.
        Err(_) => {}
    }
}

/// Keeps nothing of a sector.
pub(crate) fn forget(kept: &mut Kept, i: u32)
    ensures { Forgets i kept.old.entries kept.new.entries }
{
    if kept.len() > 0 {
        kept.pop(&i);
    }
}

/// Keeps nothing of so many neighbouring sectors, the first of them at a number.
pub(crate) fn forget_run(kept: &mut Kept, first: u32, count: usize)
    requires few { first + count ≤ 2 ^ 32 }
    ensures { ForgetsRun first count kept.old.entries kept.new.entries }
{
    for k in 0..count {
        forget(kept, first + k as u32);
    }
}
