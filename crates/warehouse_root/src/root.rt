//! The root of a warehouse.
ghost use Rattle.std.specs.Prelude.{◌≡◌, ◌⊎◌, ◌≤◌, ◌<◌, [], ◌∷◌, ◌++◌, length, All, IfErr, IfOk, OnOk, IsOkUnless};
ghost use Rattle.cube_model.specs.declared.fault.Fault.{Fault};
ghost use Rattle.cube_model.specs.Limits.{most_batch_rows, most_batches};
ghost use Rattle.warehouse_root.specs.Limits.{most_additions, most_cuboids};
ghost use Rattle.warehouse_root.specs.Objects.{object_ids};
ghost use Rattle.warehouse_root.specs.Root.{ViewsAscend, AreProperTotals, IsProperRoot, IsProperCuboid, IsRoot};
ghost use Rattle.warehouse_root.specs.Root.{IsRootOf};
ghost use Rattle.warehouse_root.specs.Root.{PlainRoot, first_root, root_in_second, put_stored_cuboid, root_spelling};
ghost use Rattle.warehouse_root.specs.Root.{root_with_addition};
ghost use Rattle.warehouse_root.specs.Root.{root_with_batch};
ghost use Rattle.warehouse_root.specs.Root.{with_cuboid, with_cuboids, with_target};

use crate::cuboid::StoredCuboid;
use crate::decoding::keep_rules;
use crate::encoding::{push_counts, push_cuboids, push_rows, push_totals};
use crate::layout::Layout;
use crate::objects::{push_numbers, push_runs, segment_id};
use crate::reading::read_parts;
use cube_model::{Fault, Totals};
use std::alloc::Global;
use std::marker::Model;

/// What a warehouse says of its batches and its stored cuboids. It keeps the rules of a root.
pub struct Root {
    layout: Layout,
    batches: Vec<u32>,
    target: u32,
    additions: u32,
    totals: Totals,
    cuboids: Vec<StoredCuboid>,
}

// Written out, so that a proof has one call to follow where one is let go.
impl Drop for Root {
    fn drop(self) {
        let Root {
            layout: _,
            batches: _,
            target: _,
            additions: _,
            totals: _,
            cuboids: _,
        } = self;
    }
}

impl Model for Root {
    ghost use Rattle.warehouse_root.specs.Root.{IsProperRoot, PlainRoot};

    ghost Value = { PlainRoot };

    ghost view = { λ root. record {
      layout = root.layout;
      batches = root.batches.items;
      target = root.target;
      additions = root.additions;
      totals = root.totals;
      cuboids = root.cuboids.items;
    } };

    ghost invariant = { λ root. IsProperRoot (record {
      layout = root.layout;
      batches = root.batches.items;
      target = root.target;
      additions = root.additions;
      totals = root.totals;
      cuboids = root.cuboids.items;
    }) };
}

impl Root {
    /// The root of a warehouse of no batch.
    pub fn new(alloc: Global, layout: Layout) -> Root
        ensures { result ≡ first_root layout }
    {
        let totals = Totals {
            quantity: 0,
            extendedprice: 0,
            revenue: 0,
            supplycost: 0,
            discounted: 0,
            profit: 0,
        };
        Root {
            layout,
            batches: Vec::new(alloc),
            target: 0,
            additions: 0,
            totals,
            cuboids: Vec::new(alloc),
        }
    }

    /// The root with one batch more, of so many rows, and the totals with its rows.
    pub fn with_batch(&self, alloc: Global, rows: u32, totals: Totals) -> Result<Root, Fault>
        requires batches { length self.now.batches < most_batches }
        requires rows { rows ≤ most_batch_rows }
        requires totals { AreProperTotals totals }
        ensures ok { IfOk result (λ root. root ≡ root_with_batch rows totals self.now) }
        ensures memory { IsOkUnless result Fault.Memory }
    {
        let batches = with_rows(alloc, &self.batches, rows)?;
        let cuboids = Vec::from_slice(alloc, &self.cuboids)?;
        Ok(Root {
            layout: self.layout,
            batches,
            target: self.target,
            additions: self.additions,
            totals,
            cuboids,
        })
    }

    /// The root with another target.
    pub fn with_target(&self, alloc: Global, target: u32) -> Result<Root, Fault>
        requires { target ≤ length self.now.batches }
        ensures ok { IfOk result (λ root. root ≡ with_target target self.now) }
        ensures memory { IsOkUnless result Fault.Memory }
    {
        let batches = Vec::from_slice(alloc, &self.batches)?;
        let cuboids = Vec::from_slice(alloc, &self.cuboids)?;
        Ok(Root {
            layout: self.layout,
            batches,
            target,
            additions: self.additions,
            totals: self.totals,
            cuboids,
        })
    }

    /// The root where rows were added to dimensions once more.
    pub fn with_addition(&self, alloc: Global) -> Result<Root, Fault>
        requires { self.now.additions < most_additions }
        ensures ok { IfOk result (λ root. root ≡ root_with_addition self.now) }
        ensures memory { IsOkUnless result Fault.Memory }
    {
        let batches = Vec::from_slice(alloc, &self.batches)?;
        let cuboids = Vec::from_slice(alloc, &self.cuboids)?;
        Ok(Root {
            layout: self.layout,
            batches,
            target: self.target,
            additions: self.additions + 1,
            totals: self.totals,
            cuboids,
        })
    }

    /// The root of the same batches and cuboids in the second layout.
    pub fn in_second_layout(&self, alloc: Global) -> Result<Root, Fault>
        ensures ok { IfOk result (λ root. root ≡ root_in_second self.now) }
        ensures memory { IsOkUnless result Fault.Memory }
    {
        let batches = Vec::from_slice(alloc, &self.batches)?;
        let cuboids = Vec::from_slice(alloc, &self.cuboids)?;
        Ok(Root {
            layout: Layout::Second,
            batches,
            target: self.target,
            additions: self.additions,
            totals: self.totals,
            cuboids,
        })
    }

    /// The root with a cuboid in the place of that of its view. Where it has none of that view it stays as it is.
    pub fn with_cuboid(&self, alloc: Global, cuboid: StoredCuboid) -> Result<Root, Fault>
        requires { IsProperCuboid self.now.layout (length self.now.batches) cuboid }
        ensures ok { IfOk result (λ root. root ≡ with_cuboid cuboid self.now) }
        ensures memory { IsOkUnless result Fault.Memory }
    {
        let batches = Vec::from_slice(alloc, &self.batches)?;
        let cuboids = with_one(alloc, &self.cuboids, cuboid)?;
        Ok(Root {
            layout: self.layout,
            batches,
            target: self.target,
            additions: self.additions,
            totals: self.totals,
            cuboids,
        })
    }

    /// The root with other cuboids, by ascending view, and the target 0.
    pub fn with_cuboids(&self, alloc: Global, cuboids: Vec<StoredCuboid>) -> Result<Root, Fault>
        requires few { length cuboids.items ≤ most_cuboids }
        requires each { All (IsProperCuboid self.now.layout (length self.now.batches)) cuboids.items }
        requires ascending { ViewsAscend cuboids.items }
        ensures ok { IfOk result (λ root. root ≡ with_cuboids cuboids.items self.now) }
        ensures memory { IsOkUnless result Fault.Memory }
    {
        let batches = Vec::from_slice(alloc, &self.batches)?;
        Ok(Root {
            layout: self.layout,
            batches,
            target: 0,
            additions: self.additions,
            totals: self.totals,
            cuboids,
        })
    }

    /// The bytes of the root.
    pub fn encode(&self, alloc: Global) -> Result<Vec<u8>, Fault>
        ensures ok { IfOk result (λ bytes. IsRoot bytes.items self.now) }
        ensures memory { IsOkUnless result Fault.Memory }
    {
        let (batches, cuboids) = (self.batches.len(), self.cuboids.len());
        let mut out = Vec::with_capacity(alloc, 64 + 4 * batches + 12 * cuboids)?;
        self.push_parts(&mut out)?;
        Ok(out)
    }

    // Adds the bytes of the root.
    fn push_parts(&self, out: &mut Vec<u8>) -> Result<(), Fault>
        ensures ok { OnOk result (out.new.items ≡ out.old.items ++ root_spelling self.now) }
        ensures memory { IsOkUnless result Fault.Memory }
    {
        push_counts(
            out,
            self.batches.len() as u32,
            self.target,
            self.additions,
            self.cuboids.len() as u32,
        )?;
        push_totals(out, &self.totals)?;
        push_rows(out, &self.batches)?;
        push_cuboids(out, &self.cuboids)
    }

    /// The root of a layout that the bytes spell. `BadLayout` where they spell none that keeps the rules.
    pub fn decode(alloc: Global, layout: Layout, bytes: &[u8]) -> Result<Root, Fault>
        ensures ok { IfOk result (IsRootOf layout bytes.now) }
        ensures refused { IfErr result (λ fault. (fault ≡ Fault.Memory)
            ⊎ ((fault ≡ Fault.BadLayout) × ((root : PlainRoot) → ¬ IsRootOf layout bytes.now root))) }
    {
        let parts = read_parts(alloc, bytes)?;
        if !keep_rules(
            layout,
            &parts.counts,
            &parts.totals,
            &parts.batches,
            &parts.cuboids,
        ) {
            return Err(Fault::BadLayout);
        }
        Ok(Root {
            layout,
            batches: parts.batches,
            target: parts.counts.target,
            additions: parts.counts.additions,
            totals: parts.totals,
            cuboids: parts.cuboids,
        })
    }

    /// The layout of the objects.
    pub fn layout(&self) -> Layout
        ensures value { result ≡ self.now.layout }

        // Each root keeps the rules.
        ensures proper { IsProperRoot self.now }
    {
        self.layout
    }

    /// How many rows each batch has, the first batch first.
    pub fn batches(&self) -> &[u32]
        ensures value { result.now ≡ self.now.batches }

        // Each root keeps the rules.
        ensures proper { IsProperRoot self.now }
    {
        &self.batches
    }

    /// How many of the first batches each stored cuboid is to hold.
    pub fn target(&self) -> u32
        ensures { result ≡ self.now.target }
    {
        self.target
    }

    /// How often rows were added to dimensions.
    pub fn additions(&self) -> u32
        ensures { result ≡ self.now.additions }
    {
        self.additions
    }

    /// The sums of absolute values over the rows of all batches.
    pub fn totals(&self) -> Totals
        ensures { result ≡ self.now.totals }
    {
        self.totals
    }

    /// The stored cuboids, by ascending view.
    pub fn cuboids(&self) -> &[StoredCuboid]
        ensures value { result.now ≡ self.now.cuboids }

        // Each root keeps the rules.
        ensures proper { IsProperRoot self.now }
    {
        &self.cuboids
    }

    /// The ids of the objects that the root asks for, ascending: dimensions, segments, runs of cuboids.
    pub fn object_ids(&self, alloc: Global) -> Result<Vec<u32>, Fault>
        ensures ok { IfOk result (λ ids. ids.items ≡ object_ids self.now) }
        ensures memory { IsOkUnless result Fault.Memory }
    {
        let mut ids = Vec::new(alloc);
        push_numbers(&mut ids, 1, self.layout.dimensions())?;
        push_numbers(&mut ids, segment_id(1), self.batches.len() as u32)?;
        push_runs(&mut ids, &self.cuboids)?;
        Ok(ids)
    }
}

// The rows of some batches, and of one batch more.
fn with_rows(alloc: Global, batches: &[u32], rows: u32) -> Result<Vec<u32>, Fault>
    requires { length batches.now < most_batches }
    ensures ok { IfOk result (λ more. more.items ≡ batches.now ++ rows ∷ []) }
    ensures memory { IsOkUnless result Fault.Memory }
{
    let mut more = Vec::with_capacity(alloc, batches.len() + 1)?;
    more.extend_from_slice(batches)?;
    more.push(rows)?;
    Ok(more)
}

// Cuboids with one in the place of that of its view.
fn with_one(
    alloc: Global,
    cuboids: &[StoredCuboid],
    cuboid: StoredCuboid,
) -> Result<Vec<StoredCuboid>, Fault>
    ensures ok { IfOk result (λ put. put.items ≡ put_stored_cuboid cuboid cuboids.now) }
    ensures memory { IsOkUnless result Fault.Memory }
{
    let mut put = Vec::with_capacity(alloc, cuboids.len())?;
    for other in cuboids {
        let stored = if other.view == cuboid.view {
            cuboid
        } else {
            *other
        };
        put.push(stored)?;
    }
    Ok(put)
}
