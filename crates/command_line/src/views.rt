//! The command `views`.
ghost use Rattle.std.specs.Prelude.{◌≤◌, length};
ghost use Rattle.warehouse_root.specs.Limits.{most_cuboids};

use clap::ArgMatches;
use command_files::exit::DONE;
use command_files::output::{cut_short, output};
use command_files::refusal::{Refusal, bad_query};
use command_files::system::System;
use command_sessions::device::{self, Access, InFile};
use command_sessions::explaining::explained;
use command_sessions::job::met_in;
use command_sessions::unfinished::note_unfinished;
use cube_model::{Axis, Fault};
use dimensions::Dims;
use lattice::{View, ViewName};
use query_words::{RefusedViews, hint_of_view, read_views};
use sector_device::Sectors;
use std::alloc::Global;
use std::io::Write;
use warehouse::{Layout, MOST_CUBOIDS, Session, StoredCuboid};

/// The dimensions.
static AXES: [Axis; 4] = [Axis::Customer, Axis::Supplier, Axis::Part, Axis::Date];

/// Lists the stored cuboids of a warehouse. Where views are named it stores theirs before, and no others.
pub fn views(rt: &System, given: &ArgMatches<'_>) -> Result<u8, Refusal> {
    let words = given.get_strs("view").unwrap_or(&[]);
    if words.is_empty() {
        return match device::open(rt, given, Access::Read) {
            Ok(session) => list(rt, given, &session),
            Err(met) => Err(explained(rt, given, met)),
        };
    }
    match read_views(rt.alloc(), words) {
        Ok(views) => store_views(rt, given, views),
        Err(refused) => Err(unnamed(rt.alloc(), words, refused)),
    }
}

// Stores the cuboids of some views, and lists them. Nothing is stored where the warehouse's layout lacks one.
fn store_views(rt: &System, given: &ArgMatches<'_>, views: Vec<View>) -> Result<u8, Refusal>
    requires few { length views.items ≤ most_cuboids }
{
    let mut session = match device::open(rt, given, Access::Commit) {
        Ok(session) => session,
        Err(met) => return Err(explained(rt, given, met)),
    };
    if let Some(view) = lacking(session.layout(), views.as_slice()) {
        return Err(no_ship_modes(rt.alloc(), view));
    }
    match session.set_views(rt.alloc(), views.as_slice()) {
        Ok(()) => list(rt, given, &session),
        Err(fault) => Err(explained(rt, given, met_in(rt.alloc(), fault, &session))),
    }
}

// The first of some views that a layout lacks.
fn lacking(layout: Layout, views: &[View]) -> Option<View> {
    for view in views {
        if view.index() >= layout.views() {
            return Some(*view);
        }
    }
    None
}

// The refusal of a view that groups by ship mode, where that is no axis.
fn no_ship_modes(alloc: Global, view: View) -> Refusal {
    let name = ViewName {
        view,
        ship_modes: true,
    };
    bad_query(format!(in alloc;
        "{name}: ship mode is an axis from layout 2 on; ssbcube migrate moves the warehouse there"
    ))
}

// The refusal of words that name no list of views.
fn unnamed(alloc: Global, words: &[&str], refused: RefusedViews) -> Refusal {
    let hint = match refused {
        RefusedViews::Memory => return Refusal::from(Fault::Memory),
        RefusedViews::TooMany => {
            format!(in alloc; "{} views: at most {MOST_CUBOIDS} are stored", words.len())
        }
        RefusedViews::Unknown(place) => hint_of_view(alloc, word_at(words, place)),
        RefusedViews::Twice(place) => {
            format!(in alloc; "{}: this view is named twice", word_at(words, place))
        }
    };
    Refusal {
        fault: Fault::BadQuery,
        hint: hint.ok(),
    }
}

fn word_at<'w>(words: &[&'w str], place: usize) -> &'w str {
    match words.get(place) {
        Some(word) => word,
        None => "",
    }
}

// Prints the stored cuboids of a warehouse.
fn list<D: Sectors + InFile>(
    rt: &System,
    given: &ArgMatches<'_>,
    session: &Session<D>,
) -> Result<u8, Refusal> {
    let mut out = output(rt)?;
    match write_cuboids(session, &mut out) {
        Ok(()) => {
            note_unfinished(rt, given, session);
            Ok(DONE)
        }
        Err(Fault::Output) => cut_short(rt.alloc(), out.failure()),
        Err(fault) => Err(explained(rt, given, met_in(rt.alloc(), fault, session))),
    }
}

// Writes a line for each stored cuboid.
fn write_cuboids<D: Sectors, W: Write>(session: &Session<D>, out: &mut W) -> Result<(), Fault> {
    let status = session.status()?;
    let ship_modes = session.ship_mode_count();
    for place in status.cuboids {
        if let Some(cuboid) = place {
            write_cuboid(session.dims(), ship_modes, cuboid, out)?;
        }
    }
    match out.flush() {
        Ok(()) => Ok(()),
        Err(_) => Err(Fault::Output),
    }
}

// Writes the line of a stored cuboid, whose view has a fifth part where ship mode is an axis, of so many members.
fn write_cuboid<W: Write>(
    dims: &Dims,
    ship_modes: Option<u32>,
    cuboid: StoredCuboid,
    out: &mut W,
) -> Result<(), Fault> {
    let Some(view) = View::new(cuboid.view) else {
        return Ok(());
    };
    let name = ViewName {
        view,
        ship_modes: ship_modes.is_some(),
    };
    let members = members(dims, ship_modes, view);
    match writeln!(
        out,
        "{name} members {members} mark {} cells {}",
        cuboid.mark, cuboid.cells
    ) {
        Ok(()) => Ok(()),
        Err(_) => Err(Fault::Output),
    }
}

// The product of the numbers of members of the levels of a view, of which there are so many ship modes.
fn members(dims: &Dims, ship_modes: Option<u32>, view: View) -> u64 {
    let mut product = match ship_modes {
        Some(count) if view.ship_mode => u64::from(count),
        _ => 1,
    };
    for axis in AXES {
        if let Some(attr) = view.level(axis).attribute(axis) {
            product = product.saturating_mul(dims.members(attr) as u64);
        }
    }
    product
}
