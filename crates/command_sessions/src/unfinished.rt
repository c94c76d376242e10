//! A note on an upkeep that is not finished.
use crate::device::path_of;
use clap::ArgMatches;
use command_files::system::System;
use sector_device::Sectors;
use std::alloc::{AllocError, Global};
use warehouse::{Session, Status};

/// Whether a stored cuboid holds fewer batches than the last upkeep was to bring it to: the upkeep was cut off, or
/// refused.
pub fn is_unfinished<D: Sectors>(session: &Session<D>) -> bool {
    match session.status() {
        Ok(status) => status
            .cuboids
            .iter()
            .flatten()
            .any(|cuboid| cuboid.mark < status.target),
        Err(_) => false,
    }
}

/// Says on standard error which stored cuboids hold fewer batches than the last upkeep was to bring them to, where
/// there are some: there was no room for them, they would have too many cells, or the file could not be written.
/// Standard output and the status stay as they are, also where standard error takes nothing.
pub fn note_unfinished<D: Sectors>(rt: &System, given: &ArgMatches<'_>, session: &Session<D>) {
    let Ok(status) = session.status() else {
        return;
    };
    let Ok(views) = unfinished_views(rt.alloc(), &status) else {
        return;
    };
    if !views.is_empty() {
        let _said = eprintln!(rt;
            "note: an upkeep to batch {} is not finished; cuboids with fewer batches: {views}; 'ssbcube upkeep {}' finishes it, or says why not",
            status.target,
            path_of(given)
        );
    }
}

// The numbers of the views whose cuboids hold fewer batches than the target, with commas between them.
fn unfinished_views(alloc: Global, status: &Status) -> Result<String, AllocError> {
    let mut views = String::new(alloc);
    for place in status.cuboids {
        if let Some(cuboid) = place {
            if cuboid.mark < status.target {
                push_view(alloc, &mut views, cuboid.view)?;
            }
        }
    }
    Ok(views)
}

fn push_view(alloc: Global, views: &mut String, view: u16) -> Result<(), AllocError> {
    if !views.is_empty() {
        views.push_str(", ")?;
    }
    let number = format!(in alloc; "{view}")?;
    views.push_str(number.as_str())
}
