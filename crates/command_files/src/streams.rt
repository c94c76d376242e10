//! The handles of the three standard streams.
use crate::system::System;
use std::fs;
use std::fs::File;

/// Handles that only read, which are held while the program runs.
///
/// A system gives a file that is opened the lowest handle that is free. Where the program was started with a standard
/// stream closed, that is the handle of the stream: what is printed would then be written into the warehouse, and what
/// is read as a table would be the warehouse. So the first files that are opened are these, of the root folder, which
/// can neither be written nor read as a text.
#[derive(Drop)]
pub struct Held<F> {
    first: Option<F>,
    second: Option<F>,
    third: Option<F>,
}

/// Takes the handles of the standard streams that are closed, where there are some.
pub fn hold_streams(rt: &System) -> Held<File> {
    Held {
        first: fs::open(rt, "/").ok(),
        second: fs::open(rt, "/").ok(),
        third: fs::open(rt, "/").ok(),
    }
}
