//! Numbers as they are stored on disk: the lowest byte first, signed ones in two's complement.
#![tactic(auto)]

mod cursor;
mod field;
pub mod limits;
mod part;
mod push;
mod source;
mod whole;
mod write;

pub use cursor::Cursor;
pub use part::read_part;
pub use push::{push_bytes, push_i64, push_u8, push_u16, push_u32, push_u64};
pub use source::{SliceSource, Source};
pub use whole::read_whole;
pub use write::{write_bytes, write_i64, write_u16, write_u32, write_u64};
