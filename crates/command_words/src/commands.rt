//! The commands of the program.
use crate::add::ADD;
use crate::check::CHECK;
use crate::copy::COPY;
use crate::create::CREATE;
use crate::cube::CUBE;
use crate::cuboids::{AUDIT, CHOOSE, UPKEEP};
use crate::demo::DEMO;
use crate::described::{Described, with_words};
use crate::dump::{DUMP, MEMBERS};
use crate::eval::EVAL;
use crate::explain::EXPLAIN;
use crate::generate::GENERATE;
use crate::load::LOAD;
use crate::merge::MERGE;
use crate::migrate::MIGRATE;
use crate::report::REPORT;
use crate::self_test::SELF_TEST;
use crate::shells::{COMPLETIONS, MANUAL};
use crate::status::STATUS;
use crate::views::VIEWS;
use crate::words::Words;
use clap::Command;
use std::alloc::{AllocError, Global};

/// The version of the program.
pub(crate) const VERSION: &str = "0.1.0";

/// What the program is.
pub(crate) const ABOUT: &str =
    "A crash-safe warehouse for the Star Schema Benchmark in one file, and answers
from the text tables of the benchmark's generator.";

/// What the help says after the commands.
pub(crate) const HELP: &str = "From tables to a report:
  ssbcube create star.dev --sectors 1000000 --customer customer.tbl \\
      --supplier supplier.tbl --part part.tbl --date date.tbl
  ssbcube load star.dev --first 1 lineorder.tbl
  ssbcube report star.dev 3.1

A refusal goes to standard error with status 1: a line such as
'fault 9 FieldCount line 1', followed by an explanation where more is known.
Status 2 means that the command line was not understood. 'ssbcube COMMAND
--help' has the options of a command and examples.";

/// The commands, in the order of the help.
pub(crate) fn commands() -> [&'static Described; 23] {
    [
        &EVAL,
        &CREATE,
        &LOAD,
        &ADD,
        &REPORT,
        &CUBE,
        &MERGE,
        &EXPLAIN,
        &STATUS,
        &MEMBERS,
        &CHOOSE,
        &UPKEEP,
        &AUDIT,
        &CHECK,
        &VIEWS,
        &COPY,
        &MIGRATE,
        &DUMP,
        &DEMO,
        &SELF_TEST,
        &GENERATE,
        &MANUAL,
        &COMPLETIONS,
    ]
}

/// The commands of the program, and their words. It can only fail when out of memory.
pub fn command<'a>(alloc: Global) -> Result<Command<'a>, AllocError> {
    let mut parsed = Vec::new(alloc);
    for described in commands() {
        parsed.push(described.command(alloc)?)?;
    }
    program(alloc).subcommands(parsed)
}

// The program without its commands, and what its help says of it.
fn program<'a>(alloc: Global) -> Command<'a> {
    Command::new(alloc, "ssbcube")
        .version(VERSION)
        .about(ABOUT)
        .after_help(HELP)
        .subcommand_required(true)
        .arg_required_else_help(true)
}

/// The words of a query in a list of queries: the number of a query of the benchmark, or an ad-hoc query. It can only
/// fail when out of memory.
pub fn listed_query<'a>(alloc: Global) -> Result<Command<'a>, AllocError> {
    let query = Command::new(alloc, "query")
        .no_binary_name(true)
        .disable_help_flag(true);
    with_words(alloc, query, &[Words::Cube, Words::Asked], false)
}
