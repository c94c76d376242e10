//! The command `self-test`.
use clap::ArgMatches;
use command_files::exit::exit_of;
use command_files::output::{cut_short, output};
use command_files::refusal::Refusal;
use command_files::system::System;
use cube_model::Fault;
use trials::test_crashes;

/// For how many seconds there are random crashes, if the command does not say.
const SECONDS: u32 = 10;

/// Tests the program by crashes of a warehouse on a disk in memory, and gives the status of the program: 0 where
/// nothing is wrong, else 1.
pub fn self_test(rt: &System, given: &ArgMatches<'_>) -> Result<u8, Refusal> {
    let seconds = given.get_one::<u32>("seconds").unwrap_or(SECONDS);
    let mut out = output(rt)?;
    match test_crashes(rt, rt.alloc(), seconds, &mut out) {
        Err(Fault::Output) => cut_short(rt.alloc(), out.failure()),
        Err(fault) => Err(Refusal::from(fault)),
        tested => Ok(exit_of(&tested)),
    }
}
