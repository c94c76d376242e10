//! Standard output.
use crate::exit::DONE;
use crate::refusal::Refusal;
use crate::system::System;
use crate::watched::Watched;
use cube_model::Fault;
use std::alloc::Global;
use std::io::{self, BufWriter, ErrorKind, Printer};

/// Standard output with a buffer, with why a write to it failed.
pub type Output<'r> = Watched<BufWriter<Printer<'r, System>>>;

/// Standard output, of which no write has failed yet.
pub fn output(rt: &System) -> Result<Output<'_>, Fault> {
    match BufWriter::new(rt.alloc(), io::writer(rt)) {
        Ok(out) => Ok(Watched::new(out)),
        Err(_) => Err(Fault::Memory),
    }
}

/// Whether a write failed since its reader wants no more.
pub fn is_closed(failure: Option<io::Error>) -> bool {
    match failure {
        Some(error) => error.kind() == ErrorKind::BrokenPipe,
        None => false,
    }
}

/// The refusal of a write, with what the system said.
pub fn unwritten(alloc: Global, failure: Option<io::Error>) -> Refusal {
    let hint = match failure {
        Some(error) => format!(in alloc; "standard output: {error}").ok(),
        None => None,
    };
    Refusal {
        fault: Fault::Output,
        hint,
    }
}

/// The status where standard output took no more of what a command prints, or the refusal of the write. A reader that
/// closes early has read what it wants.
pub fn cut_short(alloc: Global, failure: Option<io::Error>) -> Result<u8, Refusal> {
    if is_closed(failure) {
        Ok(DONE)
    } else {
        Err(unwritten(alloc, failure))
    }
}
