//! A content of objects and a root on a device of sectors, replaced by commits that a crash leaves done or not begun.
#![tactic(auto)]

pub mod catalogue;
mod create;
mod entries;
mod extent;
mod find;
pub mod laws;
mod layout;
mod place;
mod publish;
mod read;
mod source;
mod staged;
mod store;

pub use store::Store;
