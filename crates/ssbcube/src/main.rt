//! The star schema warehouse at the command line.
#![tactic(auto)]

use command_line::{Screens, System, refuse, run, words};
use std::io::{self, IsTerminal};
use std::process::ExitCode;

fn main(rt: HostRuntime) -> io::Result<ExitCode> {
    let screens = Screens {
        output: rt.stdout().is_terminal(),
        errors: rt.stderr().is_terminal(),
    };
    let words = words(&rt);
    let system = System::new(rt);
    let status = match words {
        Ok(words) => run(&system, words.as_slice(), screens)?,
        Err(refusal) => refuse(&system, refusal)?,
    };
    Ok(ExitCode::from(status))
}
