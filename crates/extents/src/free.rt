ghost use Rattle.std.specs.Prelude.{◌≡◌, ℕ, ◌+◌, ◌^◌, ◌<◌, ◌↔◌, ◌⊎◌, ◌++◌, List, take, drop, vec_len, position, nat_le};
ghost use Rattle.std.specs.Prelude.{IsOkUnless, IfOk, IfErr, OnOk, OnErr};
ghost use Rattle.cube_model.specs.declared.fault.Fault.{Fault};
ghost use Rattle.extents.specs.declared.extent.Extent.{Extent};
ghost use Rattle.extents.specs.Extents.{Holds, SomeHolds, IsInRange, AreLaidOut};
ghost use Rattle.extents.specs.Join.{IsJoin, joined_runs};
ghost use Rattle.extents.specs.Runs.{IsFree, AreFreeFrom, IsFirstFit, TakesAway, GivesBack, IsFreeOutside, gap};

use crate::extent::Extent;
use crate::gaps::{gaps, sorted};
use crate::join::{Join, ended, put};
use cube_model::Fault;
use std::alloc::Global;
use std::marker::Model;

/// The free sectors of a device. Contracts see how many sectors the device has, and which are free.
#[derive(Drop)]
pub struct Free {
    count: u32,
    runs: Vec<Extent>,
}

impl Model for Free {
    ghost use Rattle.std.specs.Prelude.{◌+◌};
    ghost use Rattle.extents.specs.Runs.{FreeSectors, AreRuns};

    ghost Value = { FreeSectors };

    ghost view = { λ f. record { count = f.count; runs = f.runs.items } };

    ghost invariant = { λ f. AreRuns 2 (f.count + 1) f.runs.items };
}

impl Free {
    /// The sectors from 2 on, of a device of `count` sectors, that lie in none of the extents in use.
    ///
    /// `BadLayout` where two extents share a sector, or one is empty, holds sector 0 or 1 or ends past the device.
    pub fn from_used(alloc: Global, count: u32, used: &[Extent]) -> Result<Free, Fault>
        ensures ok { IfOk result (IsFreeOutside count used.now) }
        ensures laid_out { OnOk result (AreLaidOut count used.now) }
        ensures refused { IfErr result
            (λ fault. (fault ≡ Fault.Memory) ⊎ ((fault ≡ Fault.BadLayout) × (¬ AreLaidOut count used.now))) }
    {
        let sorted = sorted(alloc, used)?;
        let runs = gaps(alloc, count, &sorted)?;
        Ok(Free { count, runs })
    }

    /// Takes away the first `len` free sectors in a row; `Full` where there are none. It needs no memory.
    pub fn take(&mut self, len: u32) -> Result<Extent, Fault>
        requires { 0 < len }
        ensures first_fit { IfOk result (IsFirstFit self.old len) }
        ensures in_range { IfOk result (IsInRange self.old.count) }
        ensures taken { IfOk result (λ extent. TakesAway self.old extent self.new) }

        // It shares no sector with any extents of which none was free.
        ensures apart { IfOk result (λ extent. (used : List Extent)
            → ((sector : ℕ) → SomeHolds used sector → ¬ IsFree self.old sector)
            → (sector : ℕ) → Holds extent sector → ¬ SomeHolds used sector) }

        ensures full { (result ≡ Err Fault.Full) ↔ ((first : ℕ) → ¬ AreFreeFrom self.old len first) }
        ensures only_full { IsOkUnless result Fault.Full }
        ensures err { OnErr result (self.new ≡ self.old) }
    {
        let Some(place) = first_long(&self.runs, len) else {
            return Err(Fault::Full);
        };
        let run = self.runs[place];
        let rest = Extent {
            first: run.first + len,
            len: run.len - len,
        };
        put_rest(&mut self.runs, place, rest);
        Ok(Extent {
            first: run.first,
            len,
        })
    }

    /// Adds the sectors of an extent of which none is free.
    pub fn give_back(&mut self, extent: Extent) -> Result<(), Fault>
        requires in_range { IsInRange self.old.count extent }
        requires in_use { (sector : ℕ) → Holds extent sector → ¬ IsFree self.old sector }
        ensures ok { OnOk result (GivesBack self.old extent self.new) }
        ensures memory { IsOkUnless result Fault.Memory }
        ensures err { OnErr result (self.new ≡ self.old) }
    {
        let join = self.join_after(self.join_before(extent));
        put(&mut self.runs, join)
    }

    /// The same free sectors, which do not change with these.
    pub fn copy(&self) -> Result<Free, Fault>
        ensures ok { IfOk result (λ copy. copy ≡ self.now) }
        ensures memory { IsOkUnless result Fault.Memory }
    {
        let runs = self.runs.clone()?;
        Ok(Free {
            count: self.count,
            runs,
        })
    }

    // The extent, joined with the run that ends where it begins.
    fn join_before(&self, extent: Extent) -> Join
        requires in_range { IsInRange self.now.count extent }
        requires in_use { (sector : ℕ) → Holds extent sector → ¬ IsFree self.now sector }
        requires small { self.now.count < 2 ^ 32 }
        ensures join { IsJoin 0 self.now result }
        ensures sectors { (sector : ℕ)
            → SomeHolds (joined_runs self.now.runs result) sector ↔ (IsFree self.now sector ⊎ Holds extent sector) }
    {
        let place = ended(&self.runs, extent.first);
        if place < self.runs.len() {
            let run = self.runs[place];
            if run.end() == u64::from(extent.first) {
                return Join {
                    joined: Extent {
                        first: run.first,
                        len: run.len + extent.len,
                    },
                    place,
                    after: place + 1,
                };
            }
        }
        Join {
            joined: extent,
            place,
            after: place,
        }
    }

    // The same, joined with the run that begins where it ends.
    fn join_after(&self, join: Join) -> Join
        requires before { IsJoin 0 self.now join }
        requires small { self.now.count < 2 ^ 32 }
        ensures join { IsJoin 1 self.now result }
        ensures sectors { (sector : ℕ)
            → SomeHolds (joined_runs self.now.runs result) sector ↔ SomeHolds (joined_runs self.now.runs join) sector }
    {
        if join.after < self.runs.len() {
            let run = self.runs[join.after];
            if join.joined.end() == u64::from(run.first) {
                return Join {
                    joined: Extent {
                        first: join.joined.first,
                        len: join.joined.len + run.len,
                    },
                    place: join.place,
                    after: join.after + 1,
                };
            }
        }
        join
    }
}

// Puts what is left of a run in its place, and removes the run where nothing is left.
fn put_rest(runs: &mut Vec<Extent>, place: usize, rest: Extent)
    requires { place < vec_len runs.old }
    ensures { runs.new.items
        ≡ take place runs.old.items ++ (gap rest.first (rest.first + rest.len) ++ drop (place + 1) runs.old.items) }
{
    if rest.len == 0 {
        runs.remove(place);
    } else {
        runs[place] = rest;
    }
}

// The place of the first run that is long enough.
fn first_long(runs: &[Extent], len: u32) -> Option<usize>
    ensures { result ≡ position (λ run. nat_le len run.len) runs.now }
{
    runs.iter().position(|run| len <= run.len)
}
