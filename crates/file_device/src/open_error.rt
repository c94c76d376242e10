// Why a file is not opened as a device.
ghost use Rattle.std.specs.Prelude.{◌≡◌};
ghost use Rattle.file_device.specs.OpenError.{fault_of};

use cube_model::Fault;
use std::io;

/// Why a file was not opened as a device, or not made one.
#[derive(Clone, Copy, Debug)]
pub enum OpenError {
    /// The system refused a call, and said why.
    System(io::Error),
    /// Another program holds a lock on the file.
    Locked,
    /// The path names a folder, a pipe, a device or a socket.
    NotRegular,
    /// The length of the file is no device's, or not the one that was asked for.
    Length,
    /// One of the first two sectors is not all zero.
    NotBlank,
}

impl From<OpenError> for Fault {
    ghost from_gives = { λ error fault. fault ≡ fault_of error };

    fn from(error: OpenError) -> Fault {
        match error {
            OpenError::System(_) => Fault::Device,
            OpenError::Locked => Fault::Device,
            OpenError::NotRegular => Fault::Device,
            OpenError::Length => Fault::DeviceSize,
            OpenError::NotBlank => Fault::AlreadyFormatted,
        }
    }
}
