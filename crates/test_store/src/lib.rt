//! Tests of `sector_cache` and `file_device`: what the cache reads of its device, and the device over a file. And of
//! `superblock`, `extents` and `object_store`: bytes written down by hand, where the store puts what, and crashes at
//! each call.
#![tactic(auto)]

#[cfg(test)]
mod bytes;
#[cfg(test)]
mod cache;
#[cfg(test)]
mod catalogues;
#[cfg(test)]
mod crashes;
#[cfg(test)]
mod fake_file;
#[cfg(test)]
mod file;
#[cfg(test)]
mod free_sectors;
#[cfg(test)]
mod locks;
#[cfg(test)]
mod many;
#[cfg(test)]
mod places;
#[cfg(test)]
mod removal;
#[cfg(test)]
mod runs;
#[cfg(test)]
mod steps;
#[cfg(test)]
mod superblocks;
