//! How long a command took.
use crate::progress::{Tally, Wanted, rate};
use crate::system::System;
use clap::ArgMatches;
use std::fmt;
use std::time::{CpuClock, Duration};

/// The clock of a command that reads no file of fact rows.
pub fn begin(rt: &System) -> Tally {
    let nothing = Wanted {
        progress: false,
        rows: false,
    };
    Tally::new(rt, 0, nothing)
}

/// Says on standard error how many seconds a command has taken, and how many of CPU time, where it is asked to. What
/// standard error does with it is of no account.
pub fn say_seconds(rt: &System, given: &ArgMatches<'_>, tally: &Tally) {
    if !given.get_flag("timing") {
        return;
    }
    let seconds = Seconds(tally.passed(rt));
    let cpu_seconds = Seconds(rt.process_cpu_time().unwrap_or(Duration::ZERO));
    let _said = eprintln!(rt; "seconds {seconds}\nCPU seconds {cpu_seconds}");
}

/// Says on standard error how many rows and bytes a command reads, where it is asked to.
pub fn say_read(rt: &System, given: &ArgMatches<'_>, rows: u64, bytes: u64) {
    if given.get_flag("timing") {
        let _said = eprintln!(rt; "rows read {rows}\nbytes read {bytes}");
    }
}

/// Says on standard error what a load has read, and how fast.
pub fn say_summary(rt: &System, tally: &Tally) {
    let passed = tally.passed(rt);
    let rows = tally.rows();
    let rate = rate(rows, passed);
    let _said = eprintln!(rt;
        "{rows} rows in {} seconds, {rate} a second",
        Seconds(passed)
    );
}

// A time in seconds, with three digits after the point.
#[derive(Clone, Copy)]
struct Seconds(Duration);

impl fmt::Display for Seconds {
    fn fmt<W: fmt::Write>(&self, f: &mut fmt::Formatter<W>) -> fmt::Result {
        let Seconds(passed) = *self;
        let millis = passed.subsec_millis();
        let zeros = if millis < 10 {
            "00"
        } else if millis < 100 {
            "0"
        } else {
            ""
        };
        write!(f, "{}.{zeros}{millis}", passed.as_secs())
    }
}
