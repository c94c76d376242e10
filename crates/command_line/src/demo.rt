//! The command `demo`.
use command_files::exit::DONE;
use command_files::output::{cut_short, output};
use command_files::refusal::Refusal;
use command_files::system::System;
use cube_model::Fault;
use trials::demonstrate;

/// Shows what a warehouse does, on a disk in memory.
pub fn demo(rt: &System) -> Result<u8, Refusal> {
    let mut out = output(rt)?;
    match demonstrate(rt.alloc(), &mut out) {
        Ok(()) => Ok(DONE),
        Err(Fault::Output) => cut_short(rt.alloc(), out.failure()),
        Err(fault) => Err(Refusal::from(fault)),
    }
}
