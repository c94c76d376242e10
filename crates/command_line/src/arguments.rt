//! The words that the program was started with.
use command_files::refusal::Refusal;
use cube_model::Fault;
use std::env::{self, Env, FillError};
use std::io::ErrorKind;

/// The most bytes of a word that are looked at where it is not UTF-8.
const MOST_BYTES: usize = 4096;

/// The words that the program was started with, the first of them its name. One that is not UTF-8 is refused and named.
pub fn words(rt: &HostRuntime) -> Result<Vec<String>, Refusal> {
    match env::args(rt) {
        Ok(arguments) => Ok(arguments.collect(rt.alloc())?),
        Err(error) if error.kind() == ErrorKind::OutOfMemory => Err(Refusal::from(Fault::Memory)),
        Err(_) => Err(Refusal {
            fault: Fault::Input,
            hint: odd_word(rt),
        }),
    }
}

// The first word that is not UTF-8.
fn odd_word(rt: &HostRuntime) -> Option<String> {
    let mut bytes = [0; MOST_BYTES];
    for i in 0..usize::MAX {
        match rt.arg(i, &mut bytes) {
            Ok(length) => {
                let word = &bytes[..length];
                if std::str::from_utf8(word).is_err() {
                    let shown = word.escape_ascii();
                    return format!(in rt.alloc(); "argument {i}, \"{shown}\", is not UTF-8").ok();
                }
            }
            Err(FillError::TooLong) => {}
            Err(FillError::NotPresent) => return None,
        }
    }
    None
}
