//! The statuses that the program ends with.
ghost use Rattle.std.specs.Prelude.{◌≡◌};
ghost use Rattle.command_files.specs.Status.{status_of};

use cube_model::Fault;

/// The command was done.
pub const DONE: u8 = 0;

/// The status of a load whose lines nobody reads to the end, since it stops where they cannot be written.
pub const UNFINISHED: u8 = 1;

/// The words are none of the program's.
pub const NO_COMMAND: u8 = 2;

/// The status that the program ends with: 0 where it was done and the answer is yes, else 1.
pub fn exit_of(done: &Result<bool, Fault>) -> u8
    ensures { result ≡ status_of done.now }
{
    match done {
        Ok(true) => DONE,
        Ok(false) => 1,
        Err(_) => 1,
    }
}
