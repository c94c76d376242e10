//! What the beginning of a file shows.
use command_files::files::open_again;
use command_files::system::System;
use std::io::Read;
use superblock::decode;

/// What the first two sectors of a file hold, in which the superblocks of a warehouse are.
#[derive(Clone, Copy, PartialEq, Eq)]
pub enum Contents {
    /// Zeros alone, or no byte.
    Nothing,
    /// A superblock.
    Warehouse,
    /// Something else, or what cannot be read.
    Other,
}

/// What the first two sectors of a file hold. What is no regular file is not opened.
pub fn contents_of(rt: &System, path: &str) -> Contents {
    let Some(mut file) = open_again(rt, path) else {
        return Contents::Other;
    };
    let mut sectors = [[0; 512], [0; 512]];
    match file.read(sectors.as_flattened_mut()) {
        Ok(0) => Contents::Nothing,
        Ok(1024) => shown_by(&sectors[0], &sectors[1]),
        _ => Contents::Other,
    }
}

fn shown_by(first: &[u8; 512], second: &[u8; 512]) -> Contents {
    if *first == [0; 512] && *second == [0; 512] {
        return Contents::Nothing;
    }
    if decode(first, 0).is_some() || decode(second, 1).is_some() {
        Contents::Warehouse
    } else {
        Contents::Other
    }
}
