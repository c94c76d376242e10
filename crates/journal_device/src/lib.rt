//! Devices over the bytes of a file that somebody else has read: one that is read alone; and one for whom somebody else
//! is to write the file, which keeps what is written in memory, and records it as a journal of calls that the file is
//! to be given.
#![tactic(auto)]

mod call;
mod disk;
mod image_disk;
mod journal;
mod latest;
pub mod laws;
mod origin;

pub use call::Call;
pub use disk::JournalDisk;
pub use image_disk::ImageDisk;
pub use journal::journal_of;
pub use origin::Origin;
