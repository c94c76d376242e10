//! The command `status`.
use clap::ArgMatches;
use command_files::exit::DONE;
use command_files::output::cut_short;
use command_files::records::format_of;
use command_files::refusal::Refusal;
use command_files::system::System;
use command_files::texts::print_text;
use command_sessions::device::{self, Access, InFile};
use command_sessions::explaining::explained;
use command_sessions::job::done_in;
use command_sessions::space::Room;
use command_sessions::unfinished::note_unfinished;
use cube_model::Fault;
use report_formats::{Cell, Format, Records};
use sector_device::Sectors;
use std::alloc::{AllocError, Global};
use warehouse::{Layout, Session, Status};
use warehouse_jobs::Job;

/// The fields of a record.
const FIELDS: [&str; 6] = ["name", "value", "view", "mark", "runs", "cells"];

/// Prints the numbers of the warehouse of a command, with `--all` those of its sectors too.
pub fn status(rt: &System, given: &ArgMatches<'_>) -> Result<u8, Refusal> {
    match device::open(rt, given, Access::Read) {
        Ok(mut session) => match format_of(given) {
            None => print_lines(rt, given, &mut session),
            Some(format) => print_records(rt, given, &session, format),
        },
        Err(met) => Err(explained(rt, given, met)),
    }
}

// Prints the numbers of an open warehouse, a line each.
fn print_lines<D: Sectors + InFile>(
    rt: &System,
    given: &ArgMatches<'_>,
    session: &mut Session<D>,
) -> Result<u8, Refusal> {
    let space = match given.get_flag("all") {
        true => Some(Space::of(rt.alloc(), session)?),
        false => None,
    };
    print_layout(rt, session.status()?.layout)?;
    let status = done_in(rt, given, session, Job::Status)?;
    if let Some(space) = space {
        if status == DONE {
            print_space(rt, space)?;
        }
    }
    note_unfinished(rt, given, session);
    Ok(status)
}

// Prints the layout of a warehouse, where it is not the first.
fn print_layout(rt: &System, layout: Layout) -> Result<u8, Refusal> {
    match layout {
        Layout::First => Ok(DONE),
        Layout::Second => print_text(rt, "layout 2\n"),
    }
}

// The sectors of a warehouse, and for how many more batches of the size of the last one they have room, about.
#[derive(Clone, Copy)]
struct Space {
    room: Room,
    batches: u64,
}

impl Space {
    fn of<D: Sectors>(alloc: Global, session: &Session<D>) -> Result<Space, Fault> {
        let room = Room::of(alloc, session)?;
        let batches = session.status()?.batches;
        let rows = session.batch_rows(batches).unwrap_or(0);
        Ok(Space {
            room,
            batches: room.batches_more(batches, rows),
        })
    }
}

// Prints the numbers of the sectors. A reader that closes early has read what it wants.
fn print_space(rt: &System, space: Space) -> Result<u8, Refusal> {
    let Space { room, batches } = space;
    let printed = println!(rt;
        "sectors {}\ntaken {}\nfree {}\nroom {batches} batches",
        room.sectors,
        room.taken,
        room.free()
    );
    match printed {
        Ok(()) => Ok(DONE),
        Err(error) => cut_short(rt.alloc(), Some(error)),
    }
}

// Prints the numbers of an open warehouse as records.
fn print_records<D: Sectors + InFile>(
    rt: &System,
    given: &ArgMatches<'_>,
    session: &Session<D>,
    format: Format,
) -> Result<u8, Refusal> {
    let mut records = status_records(rt.alloc(), format, &session.status()?)?;
    if given.get_flag("all") {
        push_space(rt.alloc(), &mut records, Space::of(rt.alloc(), session)?)?;
    }
    let status = print_text(rt, records.text())?;
    note_unfinished(rt, given, session);
    Ok(status)
}

// The numbers of a warehouse, and its stored cuboids.
fn status_records(alloc: Global, format: Format, status: &Status) -> Result<Records, AllocError> {
    let mut records = Records::new(alloc, format, &FIELDS)?;
    let numbers = [
        number("layout", u64::from(status.layout.number())),
        number("batches", u64::from(status.batches)),
        number("additions", u64::from(status.additions)),
        number("rows", status.rows),
        number("target", u64::from(status.target)),
        number("generation", status.generation),
    ];
    push_all(alloc, &mut records, &numbers)?;
    for cuboid in status.cuboids.iter().flatten() {
        let cells = [
            Cell::Word("cuboid"),
            Cell::Empty,
            Cell::Number(u64::from(cuboid.view)),
            Cell::Number(u64::from(cuboid.mark)),
            Cell::Number(u64::from(cuboid.runs)),
            Cell::Number(u64::from(cuboid.cells)),
        ];
        records.push(alloc, &cells)?;
    }
    Ok(records)
}

fn push_space(alloc: Global, records: &mut Records, space: Space) -> Result<(), AllocError> {
    let Space { room, batches } = space;
    let numbers = [
        number("sectors", room.sectors),
        number("taken", room.taken),
        number("free", room.free()),
        number("room", batches),
    ];
    push_all(alloc, records, &numbers)
}

fn push_all(alloc: Global, records: &mut Records, numbers: &[[Cell; 6]]) -> Result<(), AllocError> {
    for cells in numbers {
        records.push(alloc, cells)?;
    }
    Ok(())
}

// A number and its name.
fn number(name: &'static str, value: u64) -> [Cell; 6] {
    [
        Cell::Word(name),
        Cell::Number(value),
        Cell::Empty,
        Cell::Empty,
        Cell::Empty,
        Cell::Empty,
    ]
}
