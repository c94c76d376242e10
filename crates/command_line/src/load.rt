//! The command `load`.
use crate::load_refusals::refused;
use clap::ArgMatches;
use command_files::exit::{DONE, NO_COMMAND, UNFINISHED};
use command_files::files::{GivenFile, Reads, byte_count, open_file, unread_among};
use command_files::joined::{Joined, Source};
use command_files::output::{is_closed, output, unwritten};
use command_files::progress::{Progress, Tally, Wanted};
use command_files::refusal::Refusal;
use command_files::screens::Screens;
use command_files::system::{Stdin, System};
use command_files::table_paths::{count_inputs, is_standard_input, loaded_paths};
use command_files::timing::say_summary;
use command_sessions::device::{self, Access, InFile};
use command_sessions::explaining::{Met, explained};
use command_sessions::needs::Cut;
use command_sessions::space::{note_room, rows_in_all};
use command_sessions::unfinished::note_unfinished;
use cube_model::Fault;
use cube_model::limits::MOST_BATCH_ROWS;
use sector_device::Sectors;
use std::alloc::{AllocError, Global};
use std::cell::Cell;
use std::fs::File;
use std::io::{self, Read};
use warehouse::Session;
use warehouse_jobs::{BatchNumber, BatchRows, LoadText};

/// How a load cuts its files, if the command is one.
fn cut_of(given: &ArgMatches<'_>) -> Option<Cut> {
    let first = given.get_one::<u32>("first")?;
    let rows = given
        .get_one::<u32>("rows")
        .unwrap_or(MOST_BATCH_ROWS as u32);
    Some(Cut { first, rows })
}

/// What is to be loaded: how files are cut into batches, and how many rows they have together, about, where that is
/// known. As a load reads them, the lines of each of several files are counted.
pub struct LoadPlan {
    pub cut: Cut,
    pub rows: Option<u64>,
    pub counts: Vec<Cell<u64>>,
    first: BatchNumber,
    size: BatchRows,
}

// Written out, so that a proof has one call to follow where one is let go.
impl Drop for LoadPlan {
    fn drop(self) {
        let LoadPlan {
            cut: _,
            rows: _,
            counts: _,
            first: _,
            size: _,
        } = self;
    }
}

/// Loads the files of the command. Where the batches are printed to a terminal, they say themselves how far it is.
pub fn load(rt: &System, given: &ArgMatches<'_>, screens: Screens) -> Result<u8, Refusal> {
    let paths = loaded_paths(given).unwrap_or(&[]);
    if count_inputs(paths) > 1 {
        return several_inputs(rt);
    }
    match plan_of(rt, given, paths)? {
        Some(plan) => load_files(rt, given, paths, &plan, screens),
        None => Ok(NO_COMMAND),
    }
}

fn plan_of(
    rt: &System,
    given: &ArgMatches<'_>,
    paths: &[&str],
) -> Result<Option<LoadPlan>, AllocError> {
    let Some(cut) = cut_of(given) else {
        return Ok(None);
    };
    let (Some(first), Some(size)) = (
        BatchNumber::new(cut.first),
        BatchRows::new(cut.rows as usize),
    ) else {
        return Ok(None);
    };
    Ok(Some(LoadPlan {
        cut,
        rows: rows_in_all(rt, paths),
        counts: line_counts(rt.alloc(), paths.len())?,
        first,
        size,
    }))
}

// A count of lines for each of several files. Of one file the lines are not counted.
fn line_counts(alloc: Global, files: usize) -> Result<Vec<Cell<u64>>, AllocError> {
    let mut counts = Vec::new(alloc);
    if files > 1 {
        for _ in 0..files {
            counts.push(Cell::new(0))?;
        }
    }
    Ok(counts)
}

// Opens files, and loads them. Where one cannot be opened or read, the refusal says what the system said of it.
fn load_files(
    rt: &System,
    given: &ArgMatches<'_>,
    paths: &[&str],
    plan: &LoadPlan,
    screens: Screens,
) -> Result<u8, Refusal> {
    let reads = Reads::new(None);
    let done = match open_each(rt, paths, &reads) {
        Ok(sources) => load_sources(rt, given, plan, sources, screens),
        Err(fault) => Err(Refusal::from(fault)),
    };
    match done {
        Ok(status) => Ok(status),
        Err(refusal) if refusal.fault == Fault::Input => {
            Err(unread_among(rt.alloc(), paths, &reads))
        }
        Err(refusal) => Err(refusal),
    }
}

// Loads files that were opened, and says how long it took where a person reads that.
fn load_sources<F: Read + Drop>(
    rt: &System,
    given: &ArgMatches<'_>,
    plan: &LoadPlan,
    sources: Vec<F>,
    screens: Screens,
) -> Result<u8, Refusal> {
    let shows = screens.errors && !given.get_flag("quiet");
    let wanted = Wanted {
        progress: shows && !screens.output,
        rows: shows,
    };
    let length = byte_count(rt, loaded_paths(given).unwrap_or(&[])).unwrap_or(0);
    let tally = Cell::new(Tally::new(rt, length, wanted));
    let text = Joined::new(sources, plan.counts.as_slice());
    let status = load_text(rt, given, plan, Progress::new(rt, text, &tally))?;
    if shows && status == DONE {
        say_summary(rt, &tally.get());
    }
    Ok(status)
}

// Loads a text into the warehouse of a command.
fn load_text<L: Read + Drop>(
    rt: &System,
    given: &ArgMatches<'_>,
    plan: &LoadPlan,
    text: L,
) -> Result<u8, Refusal> {
    match device::open(rt, given, Access::Commit) {
        Ok(mut session) => load_into(rt, given, plan, &mut session, text),
        Err(met) => Err(explained(rt, given, met)),
    }
}

// Loads a text into an open warehouse, with a note where it has no room, and one where an upkeep is not finished.
fn load_into<L: Read + Drop, D: Sectors + InFile>(
    rt: &System,
    given: &ArgMatches<'_>,
    plan: &LoadPlan,
    session: &mut Session<D>,
    text: L,
) -> Result<u8, Refusal> {
    if let Some(rows) = plan.rows {
        note_room(rt, given, session, plan.cut, rows);
    }
    let status = load_batches(rt, given, plan, session, text)?;
    note_unfinished(rt, given, session);
    Ok(status)
}

// Loads a text into an open warehouse. A line that says how far it is goes with the text, before a note comes.
fn load_batches<L: Read + Drop, D: Sectors + InFile>(
    rt: &System,
    given: &ArgMatches<'_>,
    plan: &LoadPlan,
    session: &mut Session<D>,
    text: L,
) -> Result<u8, Refusal> {
    let mut out = output(rt)?;
    let mut text = LoadText::new(rt.alloc(), text)?;
    let done = warehouse_jobs::load(
        rt.alloc(),
        session,
        plan.first,
        plan.size,
        &mut text,
        &mut out,
    );
    match done {
        Ok(()) => Ok(DONE),
        Err(Fault::Output) => not_written(rt.alloc(), out.failure()),
        Err(fault) => Err(refused(rt, given, plan, session, &text, out.flushes(), fault)),
    }
}

// The status where standard output took no more lines of batches, or the refusal of the write.
fn not_written(alloc: Global, failure: Option<io::Error>) -> Result<u8, Refusal> {
    if is_closed(failure) {
        Ok(UNFINISHED)
    } else {
        Err(unwritten(alloc, failure))
    }
}

/// Says that standard input is given more than once.
pub fn several_inputs(rt: &System) -> Result<u8, Refusal> {
    let said = eprintln!(rt;
        "error: invalid value '-' for '<FILE>...': standard input can be read once, so give - once\n\nFor more information, try '--help'."
    );
    match said {
        Ok(()) => Ok(NO_COMMAND),
        Err(_) => Err(Refusal::from(Fault::Output)),
    }
}

/// Opens files in order.
pub fn open_each<'k>(
    rt: &System,
    paths: &[&str],
    reads: &'k Reads,
) -> Result<Vec<GivenFile<'k, Source<File, Stdin>>>, Fault> {
    let mut sources = Vec::new(rt.alloc());
    for (place, path) in paths.iter().enumerate() {
        let source = if is_standard_input(path) {
            Source::Input(rt.reader())
        } else {
            Source::File(open_file(rt, path, place, reads)?)
        };
        sources.push(GivenFile::new(source, place, reads))?;
    }
    Ok(sources)
}
