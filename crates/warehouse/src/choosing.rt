//! Which cuboids a warehouse stores.
ghost use Rattle.std.specs.Prelude.{◌≡◌, ◌≢◌, ◌⊎◌, ◌↔◌, ◌<◌, ◌≤◌, Err, List, true, false, length, map, IfErr};
ghost use Rattle.std.specs.Prelude.{IfOk, IsErrOf, IsTrue, OnOk, IsOkUnless};
ghost use Rattle.std.specs.Option.{option_map};
ghost use Rattle.cube_model.specs.declared.fault.Fault.TheVariants.{BadQuery, Device, Failed, Memory};
ghost use Rattle.view_choice.specs.Choice.{IsGreedy, benefits};
ghost use Rattle.view_choice.specs.Cuboids.{most_demanded, most_fact_rows};
ghost use Rattle.warehouse_root.specs.Limits.{most_cuboids};
ghost use Rattle.warehouse_objects.specs.Warehouse.{Warehouse, with_views};
ghost use Rattle.warehouse_objects.specs.Represents.{Represents};
ghost use Rattle.warehouse.specs.Choosing.{AreTooMany, ChooseForRefuses, ChooseRefuses, IsChoice, IsChoiceFor};
ghost use Rattle.warehouse.specs.Choosing.{IsChosenFrom, ViewsRefuse, choices_asked, lattice_asked};
ghost use Rattle.warehouse.specs.Choosing.{members_counted, members_on, views_of};
ghost use Rattle.warehouse.specs.declared.chosen.Chosen.{Chosen};
ghost use Rattle.warehouse.specs.Session.{CommitsOnce, ForItsWarehouse, IsAt, MayLeave, StaysIfRefused};
ghost use Rattle.warehouse.specs.Session.{device_of, has_failed};

use crate::chosen::Chosen;
use crate::session::Session;
use crate::status::row_total;
use cube_model::{Attr, Fault};
use dimensions::Dims;
use lattice::{Counts, LevelCounts, View};
use sector_device::Sectors;
use std::alloc::Global;
use view_choice::{MOST_DEMANDED, benefits, benefits_for, greedy, greedy_for};
use warehouse_root::limits::MOST_CUBOIDS;

impl<D: Sectors> Session<D> {
    /// Stores the cuboids of some views, and no others, in one commit. A stored cuboid of one of them stays as it is,
    /// another one holds no batch yet, and the target becomes 0. It always commits. At most 16 views; one that
    /// the layout lacks is left out.
    ///
    /// It can fail when out of memory or room, at the last generation, and because the device does.
    pub fn set_views(&mut self, alloc: Global, views: &[View]) -> Result<(), Fault>
        requires few { length views.now ≤ most_cuboids }

        // A crash leaves the cuboids as they were, or these.
        ensures leaves { MayLeave D.Sectors self.old self.new
            (λ w c. Represents c w ⊎ Represents c (with_views w views.now)) }
        ensures ok { OnOk result ((w : Warehouse) → IsAt D.Sectors self.old w
            → IsAt D.Sectors self.new (with_views w views.now) × CommitsOnce D.Sectors self.old self.new) }

        // After a refusal, unless the device failed, all is as it was, at each moment.
        ensures refused { StaysIfRefused D.Sectors self.old self.new result }

        // When each error comes.
        ensures causes { IfErr result
            (λ fault. fault ≢ Device
            → ForItsWarehouse D.Sectors self.old self.new (λ w. ViewsRefuse D.Sectors self.old w views.now fault)) }
    {
        if self.is_broken() {
            return Err(Fault::Failed);
        }
        match stored_cuboids::set_views(alloc, &mut self.store, &mut self.root, views) {
            Ok(()) => Ok(()),
            Err(fault) => Err(fault),
        }
    }

    /// Stores the cuboids of the greedy list of k views over the fact rows and the members of now, as `set_views` does,
    /// and answers the list with the benefit of each view. At most 16 views.
    ///
    /// `BadQuery` exactly where more are asked for. It can also fail when out of memory or room, at the last
    /// generation, and because the device does.
    pub fn choose(&mut self, alloc: Global, k: u8) -> Result<Vec<Chosen>, Fault>
        // A crash leaves the cuboids as they were, or those of the choice.
        ensures leaves { MayLeave D.Sectors self.old self.new (λ w c. Represents c w
            ⊎ ((chosen : List Chosen) × IsChoice w k chosen × Represents c (with_views w (views_of chosen)))) }
        ensures ok { IfOk result (λ chosen. (w : Warehouse) → IsAt D.Sectors self.old w
            → IsAt D.Sectors self.new (with_views w (views_of chosen.items))
            × CommitsOnce D.Sectors self.old self.new
            × (D.keeps_word (device_of self.new) → IsChoice w k chosen.items)) }

        // After a refusal, unless the device failed, all is as it was, at each moment.
        ensures refused { StaysIfRefused D.Sectors self.old self.new result }

        // When each error comes.
        ensures causes { IfErr result
            (λ fault. fault ≢ Device
            → ForItsWarehouse D.Sectors self.old self.new (λ w. ChooseRefuses D.Sectors self.old w k fault)) }
        ensures many { has_failed self.old ≡ false → most_cuboids < k → result ≡ Err BadQuery }
    {
        let chosen = match self.choice(alloc, k, None) {
            Ok(chosen) => chosen,
            Err(fault) => return Err(fault),
        };
        match self.set_views(alloc, chosen.views.as_slice()) {
            Ok(()) => Ok(chosen.chosen),
            Err(fault) => Err(fault),
        }
    }

    /// Stores the cuboids of the greedy list of k views where only some views are asked for, as often as each is among
    /// them, as `choose` does, and answers the list with the benefit of each view: by how much it lowers the costs of
    /// these. At most 16 views, and 65,536 that are asked for.
    ///
    /// `BadQuery` exactly where there are more. It can also fail when out of memory or room, at the last generation,
    /// and because the device does.
    pub fn choose_for(
        &mut self,
        alloc: Global,
        k: u8,
        demanded: &[View],
    ) -> Result<Vec<Chosen>, Fault>
        // A crash leaves the cuboids as they were, or those of the choice.
        ensures leaves { MayLeave D.Sectors self.old self.new (λ w c. Represents c w
            ⊎ ((chosen : List Chosen) × IsChoiceFor w demanded.now k chosen
            × Represents c (with_views w (views_of chosen)))) }
        ensures ok { IfOk result (λ chosen. (w : Warehouse) → IsAt D.Sectors self.old w
            → IsAt D.Sectors self.new (with_views w (views_of chosen.items))
            × CommitsOnce D.Sectors self.old self.new
            × (D.keeps_word (device_of self.new) → IsChoiceFor w demanded.now k chosen.items)) }

        // After a refusal, unless the device failed, all is as it was, at each moment.
        ensures refused { StaysIfRefused D.Sectors self.old self.new result }

        // When each error comes.
        ensures causes { IfErr result
            (λ fault. fault ≢ Device
            → ForItsWarehouse D.Sectors self.old self.new
            (λ w. ChooseForRefuses D.Sectors self.old w demanded.now k fault)) }
        ensures many { has_failed self.old ≡ false → (most_cuboids < k) ⊎ (most_demanded < length demanded.now)
            → result ≡ Err BadQuery }
    {
        let choice = match self.choice(alloc, k, Some(demanded)) {
            Ok(choice) => choice,
            Err(fault) => return Err(fault),
        };
        match self.set_views(alloc, choice.views.as_slice()) {
            Ok(()) => Ok(choice.chosen),
            Err(fault) => Err(fault),
        }
    }

    // The greedy list of k views over the fact rows and the members of now, where all views are asked for, or some. No
    // device call is made.
    fn choice(&self, alloc: Global, k: u8, asked: Option<&[View]>) -> Result<Choice, Fault>
        ensures ok { IfOk result
            (λ choice. ForItsWarehouse D.Sectors self.now self.now
            (λ w. IsChosenFrom (choices_asked w (option_map (λ views. views.now) asked.entry)) k choice.chosen.items)) }
        ensures views { IfOk result (λ choice. choice.views.items ≡ views_of choice.chosen.items) }
        ensures few { IfOk result (λ choice. length choice.views.items ≤ most_cuboids) }
        ensures fine { IfOk result (λ _. has_failed self.now ≡ false) }
        ensures many { has_failed self.now ≡ false → AreTooMany k (option_map (λ views. views.now) asked.entry)
            → result ≡ Err BadQuery }
        ensures failed { IsErrOf result Failed ↔ (has_failed self.now ≡ true) }
        ensures causes { IfErr result (λ fault. (fault ≡ Failed)
            ⊎ (((fault ≡ BadQuery) × AreTooMany k (option_map (λ views. views.now) asked.entry)) ⊎ (fault ≡ Memory))) }
        ensures leaves { MayLeave D.Sectors self.now self.now (λ w c. Represents c w) }
    {
        if self.is_broken() {
            return Err(Fault::Failed);
        }
        if are_too_many(k, asked) {
            return Err(Fault::BadQuery);
        }
        let rows = row_total(self.root.batches());
        let counts = counts_of(&self.dims, self.ship_mode_count());
        match Choice::of(alloc, rows, &counts, k, asked) {
            Ok(choice) => Ok(choice),
            Err(fault) => Err(fault),
        }
    }
}

// Whether more views are to be chosen than may be stored, or more are asked for than are counted.
fn are_too_many(k: u8, asked: Option<&[View]>) -> bool
    ensures { IsTrue result ↔ AreTooMany k (option_map (λ views. views.now) asked.entry) }
{
    match asked {
        None => usize::from(k) > MOST_CUBOIDS,
        Some(demanded) => usize::from(k) > MOST_CUBOIDS || demanded.len() > MOST_DEMANDED,
    }
}

// A greedy list, and its views alone.
#[derive(Drop)]
struct Choice {
    views: Vec<View>,
    chosen: Vec<Chosen>,
}

impl Choice {
    // That over so many fact rows and members, where all views are asked for, or some.
    fn of(
        alloc: Global,
        rows: u64,
        counts: &Counts,
        k: u8,
        asked: Option<&[View]>,
    ) -> Result<Choice, Fault>
        requires rows { rows ≤ most_fact_rows }
        requires few { AreTooMany k (option_map (λ views. views.now) asked) → ⊥ }
        ensures greedy { IfOk result
            (λ choice. IsGreedy (lattice_asked rows counts.now (option_map (λ views. views.now) asked.entry)) k
            choice.views.items) }
        ensures benefits { IfOk result (λ choice. map (λ one. one.benefit) choice.chosen.items
            ≡ benefits (lattice_asked rows counts.now (option_map (λ views. views.now) asked.entry))
            choice.views.items) }
        ensures views { IfOk result (λ choice. choice.views.items ≡ views_of choice.chosen.items) }
        ensures memory { IsOkUnless result Memory }
    {
        let views = greedy_asked(alloc, rows, counts, k, asked)?;
        let benefits = benefits_asked(alloc, rows, counts, k, asked, views.as_slice())?;
        let chosen = paired(alloc, views.as_slice(), benefits.as_slice())?;
        Ok(Choice { views, chosen })
    }
}

// The greedy list where all views are asked for, or some.
fn greedy_asked(
    alloc: Global,
    rows: u64,
    counts: &Counts,
    k: u8,
    asked: Option<&[View]>,
) -> Result<Vec<View>, Fault>
    requires rows { rows ≤ most_fact_rows }
    requires few { AreTooMany k (option_map (λ views. views.now) asked) → ⊥ }
    ensures greedy { IfOk result
        (λ views. IsGreedy (lattice_asked rows counts.now (option_map (λ views. views.now) asked.entry)) k
        views.items) }
    ensures memory { IsOkUnless result Memory }
{
    match asked {
        None => greedy(alloc, rows, counts, k),
        Some(demanded) => greedy_for(alloc, rows, counts, demanded, k),
    }
}

// The benefits of views where all views are asked for, or some.
fn benefits_asked(
    alloc: Global,
    rows: u64,
    counts: &Counts,
    k: u8,
    asked: Option<&[View]>,
    views: &[View],
) -> Result<Vec<u64>, Fault>
    requires rows { rows ≤ most_fact_rows }
    requires few { AreTooMany k (option_map (λ views. views.now) asked) → ⊥ }
    ensures benefits { IfOk result
        (λ found. found.items ≡ benefits (lattice_asked rows counts.now (option_map (λ views. views.now) asked.entry))
        views.now) }
    ensures memory { IsOkUnless result Memory }
{
    match asked {
        None => benefits(alloc, rows, counts, views),
        Some(demanded) => benefits_for(alloc, rows, counts, demanded, views),
    }
}

// Views with their benefits.
fn paired(alloc: Global, views: &[View], benefits: &[u64]) -> Result<Vec<Chosen>, Fault>
    requires same { length benefits.now ≡ length views.now }
    ensures views { IfOk result (λ chosen. views_of chosen.items ≡ views.now) }
    ensures benefits { IfOk result (λ chosen. map (λ one. one.benefit) chosen.items ≡ benefits.now) }
    ensures memory { IsOkUnless result Memory }
{
    let mut chosen = Vec::with_capacity(alloc, views.len())?;
    for place in 0..views.len() {
        chosen.push(Chosen {
            view: views[place],
            benefit: benefits[place],
        })?;
    }
    Ok(chosen)
}

// How many members the levels of the axes have, with a count of ship modes.
fn counts_of(dims: &Dims, ship_modes: Option<u32>) -> Counts
    ensures { result ≡ members_counted dims.now ship_modes }
{
    Counts {
        customer: members_on(
            dims,
            Attr::CustomerCity,
            Attr::CustomerNation,
            Attr::CustomerRegion,
        ),
        supplier: members_on(
            dims,
            Attr::SupplierCity,
            Attr::SupplierNation,
            Attr::SupplierRegion,
        ),
        part: members_on(dims, Attr::PartBrand1, Attr::PartCategory, Attr::PartMfgr),
        date: members_on(dims, Attr::DateKey, Attr::DateYearmonthnum, Attr::DateYear),
        ship_modes,
    }
}

// How many members three levels of an axis have.
fn members_on(dims: &Dims, lowest: Attr, middle: Attr, highest: Attr) -> LevelCounts
    ensures { result ≡ members_on dims.now lowest middle highest }
{
    LevelCounts {
        lowest: dims.members(lowest) as u32,
        middle: dims.members(middle) as u32,
        highest: dims.members(highest) as u32,
    }
}
