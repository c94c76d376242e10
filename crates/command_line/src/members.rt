//! The command `members`.
use clap::ArgMatches;
use command_files::exit::DONE;
use command_files::output::{cut_short, output};
use command_files::query::{plain_query, refusal_of};
use command_files::refusal::{Refusal, bad_query};
use command_files::system::System;
use command_sessions::device::{self, Access, InFile};
use command_sessions::explaining::explained;
use command_sessions::job::met_in;
use cube_model::{Attr, Fault};
use query_words::{QueryWords, read_query};
use sector_device::Sectors;
use std::alloc::Global;
use std::io::Write;
use table_texts::write_members;
use warehouse::Session;

/// Lists the members of an attribute of the warehouse of a command.
pub fn members(rt: &System, given: &ArgMatches<'_>) -> Result<u8, Refusal> {
    let name = given.get_str("attribute").unwrap_or("");
    let attr = attribute(rt.alloc(), name)?;
    match device::open(rt, given, Access::Read) {
        Ok(session) => print_members(rt, given, &session, attr),
        Err(met) => Err(explained(rt, given, met)),
    }
}

// The attribute of a name.
fn attribute(alloc: Global, name: &str) -> Result<Attr, Refusal> {
    let words = QueryWords {
        by: Some(name),
        agg: Some("count"),
        ..QueryWords::NONE
    };
    let query = match read_query(alloc, &words) {
        Ok(asked) => plain_query(alloc, asked, "members")?,
        Err(refused) => return Err(refusal_of(alloc, refused)),
    };
    match query.columns.as_slice() {
        [attr] => Ok(*attr),
        _ => Err(bad_query(format!(in alloc; "{name}: one attribute is listed at a time"))),
    }
}

// Prints the members of an attribute of an open warehouse.
fn print_members<D: Sectors + InFile>(
    rt: &System,
    given: &ArgMatches<'_>,
    session: &Session<D>,
    attr: Attr,
) -> Result<u8, Refusal> {
    let mut out = output(rt)?;
    match write_members(rt.alloc(), session.dims(), attr, &mut out) {
        Ok(()) => match out.flush() {
            Ok(()) => Ok(DONE),
            Err(error) => cut_short(rt.alloc(), Some(error)),
        },
        Err(Fault::Output) => cut_short(rt.alloc(), out.failure()),
        Err(fault) => Err(explained(rt, given, met_in(rt.alloc(), fault, session))),
    }
}
