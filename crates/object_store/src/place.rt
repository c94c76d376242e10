// Places for the puts of a commit.
ghost use Rattle.std.specs.Prelude.{◌≡◌, ◌^◌, ◌<◌, length, IfErr, IfOk, IsOkUnless};
ghost use Rattle.cube_model.specs.declared.fault.Fault.{Fault};
ghost use Rattle.extents.specs.declared.extent.Extent.{Extent};
ghost use Rattle.extents.specs.Extents.{AreLaidOut};
ghost use Rattle.extents.specs.Runs.{IsFreeOutside};
ghost use Rattle.object_store.specs.Commit.{ArePuts, puts_of};
ghost use Rattle.object_store.specs.Room.{FitsFail, LacksPlaces, lengths_of};
ghost use Rattle.object_store.specs.Placing.{ArePlaced, ArePlacedOutside, LacksMemoryOr};

use crate::catalogue::Entry;
use cube_model::Fault;
use extents::{Extent, Free};
use std::alloc::Global;

/// An entry for each put, in order, each by first fit outside extents that keep the rules of the layout, and what is
/// then free.
pub(crate) fn place_outside(
    alloc: Global,
    sectors: u32,
    used: &[Extent],
    puts: &[(u32, &[u8])],
) -> Result<(Free, Vec<Entry>), Fault>
    requires used { AreLaidOut sectors used.now }
    requires puts { ArePuts (puts_of puts.now) }
    ensures ok { IfOk result (λ both. ArePlacedOutside sectors used.now (puts_of puts.now) both.1.items both.0) }
    ensures refused { IfErr result (LacksMemoryOr (LacksPlaces sectors used.now (lengths_of (puts_of puts.now)))) }
{
    let mut free = free_outside(alloc, sectors, used)?;
    let placed = place(alloc, &mut free, puts)?;
    Ok((free, placed))
}

// The free sectors outside extents that keep the rules of the layout.
fn free_outside(alloc: Global, sectors: u32, used: &[Extent]) -> Result<Free, Fault>
    requires { AreLaidOut sectors used.now }
    ensures ok { IfOk result (IsFreeOutside sectors used.now) }
    ensures memory { IsOkUnless result Fault.Memory }
{
    Free::from_used(alloc, sectors, used)
}

// An entry for each put, in order, each by first fit.
fn place(alloc: Global, free: &mut Free, puts: &[(u32, &[u8])]) -> Result<Vec<Entry>, Fault>
    requires { ArePuts (puts_of puts.now) }
    ensures ok { IfOk result (λ placed. ArePlaced free.old (puts_of puts.now) placed.items free.new) }
    ensures refused { IfErr result (LacksMemoryOr (FitsFail free.old (lengths_of (puts_of puts.now)))) }
{
    let mut placed = Vec::with_capacity(alloc, puts.len())?;
    for k in 0..puts.len() {
        let (id, bytes) = puts[k];
        let extent = free.take(bytes.len().div_ceil(512) as u32)?;
        placed.push(entry(id, extent.first, bytes))?;
    }
    Ok(placed)
}

// The entry of an object from this sector on.
fn entry(id: u32, first: u32, bytes: &[u8]) -> Entry
    ensures value { result ≡ record { id = id; first = first; bytes = length bytes.now } }
    ensures id_fits { result.id < 2 ^ 32 }
{
    Entry {
        id,
        first,
        bytes: bytes.len() as u64,
    }
}
