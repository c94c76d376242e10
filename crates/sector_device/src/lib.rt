//! A device of sectors: what a read gives, what a crash may leave, and how often it failed.
#![tactic(auto)]

mod change;
mod crash;
mod device;
mod event;
mod fuse;
mod memory;
mod run;

pub use device::{DeviceError, Sectors};
pub use event::{Event, LockKind};
pub use fuse::Fuse;
pub use memory::MemDisk;
