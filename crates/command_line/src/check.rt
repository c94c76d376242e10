//! The command `check`.
use clap::ArgMatches;
use command_files::exit::exit_of;
use command_files::output::{cut_short, output};
use command_files::refusal::Refusal;
use command_files::screens::Screens;
use command_files::system::System;
use command_sessions::course::{Cleared, Errand, Watch, begin_errand, course_of, take_back};
use command_sessions::device::{self, Access, InFile};
use command_sessions::explaining::explained;
use command_sessions::job::met_in;
use command_sessions::unfinished::note_unfinished;
use cube_model::Fault;
use sector_device::Sectors;
use warehouse::Session;

/// Checks all that is stored of the warehouse of a command, and gives the status of the program: 0 where nothing is
/// wrong, else 1. It says on a terminal how far it is.
pub fn check(rt: &System, given: &ArgMatches<'_>, screens: Screens) -> Result<u8, Refusal> {
    let course = course_of(rt, given, screens);
    match device::open_watched(rt, given, Access::Read, course.as_ref()) {
        Ok(mut session) => print_check(rt, given, &mut session, course.as_ref()),
        Err(met) => Err(explained(rt, given, met)),
    }
}

// Prints whether all that is stored of an open warehouse is right, or what is not.
fn print_check<D: Sectors + InFile>(
    rt: &System,
    given: &ArgMatches<'_>,
    session: &mut Session<D>,
    watch: Watch<'_>,
) -> Result<u8, Refusal> {
    let mut out = Cleared::new(rt, watch, output(rt)?);
    begin_errand(rt, watch, session, Errand::Check);
    let checked = warehouse_jobs::check(rt.alloc(), session, &mut out);
    take_back(rt, watch);
    match checked {
        Err(Fault::Output) => cut_short(rt.alloc(), out.writer().failure()),
        Err(fault) => Err(explained(rt, given, met_in(rt.alloc(), fault, session))),
        checked => {
            note_unfinished(rt, given, session);
            Ok(exit_of(&checked))
        }
    }
}
