//! What the program does with its words.
use crate::{
    add, check, copy, crashes, create, cuboids, demo, dump, eval, generate, load, members, merge,
    status, views,
};
use clap::ArgMatches;
use clap::error::{Error, ErrorKind};
use command_files::exit::{DONE, NO_COMMAND, exit_of};
use command_files::refusal::Refusal;
use command_files::screens::Screens;
use command_files::streams::hold_streams;
use command_files::system::System;
use command_files::texts;
use command_sessions::device::Access;
use command_sessions::{job, plans};
use command_words::command;
use cube_model::Fault;
use std::io;
use warehouse_jobs::Job;

/// Does what words say, of which the first is the program's name, and gives the status to end with: 0 done, 1 refused,
/// 2 no command. The report goes to standard output, and a refusal to standard error: its fault, and after it what is
/// known of it.
///
/// It fails where standard error cannot be written.
pub fn run(rt: &System, words: &[String], screens: Screens) -> io::Result<u8> {
    let _held = hold_streams(rt);
    match matched(rt, words, screens) {
        Ok(status) => Ok(status),
        Err(refusal) => refuse(rt, refusal),
    }
}

/// Prints a refusal, and gives the status to end with.
pub fn refuse(rt: &System, refusal: Refusal) -> io::Result<u8> {
    let Refusal { fault, hint } = refusal;
    eprintln!(rt; "{fault}")?;
    if let Some(hint) = &hint {
        eprintln!(rt; "{hint}")?;
    }
    Ok(exit_of(&Err(fault)))
}

fn matched(rt: &System, words: &[String], screens: Screens) -> Result<u8, Refusal> {
    let command = command(rt.alloc())?;
    match command.try_get_matches_from(words) {
        Ok(matches) => perform(rt, &matches, screens),
        Err(error) => Ok(explain(rt, &error)?),
    }
}

// The status of the command that the words name.
fn perform(rt: &System, matches: &ArgMatches<'_>, screens: Screens) -> Result<u8, Refusal> {
    match matches.subcommand() {
        Some(("eval", given)) => eval::eval(rt, given, screens),
        Some(("create", given)) => create::create(rt, given),
        Some(("load", given)) => load::load(rt, given, screens),
        Some(("add", given)) => add::add(rt, given),
        Some(("merge", given)) => merge::merge(rt, given),
        Some(("demo", _)) => demo::demo(rt),
        Some(("self-test", given)) => crashes::self_test(rt, given),
        Some(("generate", given)) => generate::generate(rt, given),
        Some(("manual", _)) => texts::manual(rt),
        Some(("completions", given)) => texts::completions(rt, given),
        Some((name, given)) => consult(rt, name, given, screens),
        None => Ok(NO_COMMAND),
    }
}

// The status of a command that asks a warehouse.
fn consult(
    rt: &System,
    name: &str,
    given: &ArgMatches<'_>,
    screens: Screens,
) -> Result<u8, Refusal> {
    match name {
        "report" => job::ask(rt, given),
        "cube" => job::ask(rt, given),
        "explain" => plans::explain(rt, given),
        "status" => status::status(rt, given),
        "choose" => cuboids::choose(rt, given),
        "upkeep" => cuboids::upkeep(rt, given, screens),
        "views" => views::views(rt, given),
        "members" => members::members(rt, given),
        "dump" => dump::dump(rt, given),
        "copy" => copy::copy(rt, given, screens),
        "check" => check::check(rt, given, screens),
        "audit" => job::perform_job(rt, given, Access::Read, Job::Audit),
        "migrate" => job::perform_job(rt, given, Access::Commit, Job::Migrate),
        _ => Ok(NO_COMMAND),
    }
}

// Prints what is wrong with the words, or the help that they ask for. A reader that closes early has read enough.
fn explain(rt: &System, error: &Error) -> Result<u8, Fault> {
    if error.kind() == ErrorKind::OutOfMemory {
        return Err(Fault::Memory);
    }
    if let Err(failure) = error.print(rt) {
        if failure.kind() != io::ErrorKind::BrokenPipe {
            return Err(Fault::Output);
        }
    }
    Ok(if error.exit_code() == 0 {
        DONE
    } else {
        NO_COMMAND
    })
}
