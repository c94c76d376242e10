//! Free sectors that are given back.
use cube_model::Fault;
use extents::{Extent, Free};
use std::alloc::Global;

const fn extent(first: u32, len: u32) -> Extent {
    Extent { first, len }
}

// Of a device of 64 sectors the sector 2, and 5 and 6, are in use. Two are taken and given back: the two that are taken
// next, and those that a copy gives which was made before.
fn given_back(alloc: Global) -> Result<(Option<Extent>, Option<Extent>), Fault> {
    let mut free = Free::from_used(alloc, 64, &[extent(2, 1), extent(5, 2)])?;
    let mut copied = free.copy()?;
    let first = free.take(2)?;
    free.give_back(first)?;
    Ok((free.take(2).ok(), copied.take(2).ok()))
}

#[test]
fn takes_again_what_was_given_back(rt: HostRuntime) {
    let three = Some(extent(3, 2));
    assert!(rt; given_back(rt.alloc()) == Ok((three, three)));
}
