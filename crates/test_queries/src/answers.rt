//! Answers that were worked out by hand, and queries that are refused.

use super::examples::{
    AT_LIMITS, AVERAGED, BOUNDARIES, COARSER, COARSER_BOUNDARIES, Example, IMPROPER, ORDERED, PLAIN,
};
use super::running::is_as_worked;
use std::alloc::Global;

// The place of the first example that comes out otherwise than was worked out.
fn first_other(alloc: Global, examples: &[Example]) -> Option<usize> {
    examples
        .iter()
        .position(|example| !is_as_worked(alloc, example))
}

#[test]
fn plain_answers_are_as_worked(rt: HostRuntime) {
    assert!(rt; first_other(rt.alloc(), &PLAIN) == None);
}

#[test]
fn answers_at_the_boundaries_are_as_worked(rt: HostRuntime) {
    assert!(rt; first_other(rt.alloc(), &BOUNDARIES) == None);
}

#[test]
fn averages_are_as_worked(rt: HostRuntime) {
    assert!(rt; first_other(rt.alloc(), &AVERAGED) == None);
}

#[test]
fn orders_are_as_worked(rt: HostRuntime) {
    assert!(rt; first_other(rt.alloc(), &ORDERED) == None);
}

#[test]
fn cubes_and_rollups_are_as_worked(rt: HostRuntime) {
    assert!(rt; first_other(rt.alloc(), &COARSER) == None);
}

#[test]
fn cubes_and_rollups_at_the_boundaries_are_as_worked(rt: HostRuntime) {
    assert!(rt; first_other(rt.alloc(), &COARSER_BOUNDARIES) == None);
}

#[test]
fn unknown_keys_and_great_sums_are_refused(rt: HostRuntime) {
    assert!(rt; first_other(rt.alloc(), &AT_LIMITS) == None);
}

#[test]
fn improper_queries_are_refused(rt: HostRuntime) {
    assert!(rt; first_other(rt.alloc(), &IMPROPER) == None);
}
