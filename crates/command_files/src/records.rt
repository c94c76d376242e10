//! The numbers of a command as records for other programs.
use clap::ArgMatches;
use cube_model::Axis;
use lattice::View;
use report_formats::{Cell, Format};

/// The format of the records that the words of a command ask for. None where they ask for its lines.
pub fn format_of(given: &ArgMatches<'_>) -> Option<Format> {
    match Format::named(given.get_str("format")?) {
        Some(Format::Bars) | None => None,
        format => format,
    }
}

/// The cells of a view: its number, the level of each dimension, and that of ship mode. A cell is empty for ALL.
pub fn view_cells(view: View) -> [Cell; 6] {
    [
        Cell::Number(u64::from(view.index())),
        level_cell(view, Axis::Customer),
        level_cell(view, Axis::Supplier),
        level_cell(view, Axis::Part),
        level_cell(view, Axis::Date),
        mode_cell(view),
    ]
}

fn mode_cell(view: View) -> Cell {
    if view.ship_mode {
        Cell::Word("shipmode")
    } else {
        Cell::Empty
    }
}

fn level_cell(view: View, axis: Axis) -> Cell {
    let level = view.level(axis);
    match level.attribute(axis) {
        Some(_) => Cell::Word(level.name(axis)),
        None => Cell::Empty,
    }
}
