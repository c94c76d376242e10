//! Tests of what is hostile: readers and writers that fail at each call under the thirteen reports, devices that give
//! other bytes than were written, images that break each rule of the layout in turn, a life in which objects are
//! dropped, cut off at each device call, and a campaign of failing calls over a whole life. And loads and additions
//! whose reader, writer or device fails.
#![tactic(auto)]

#[cfg(test)]
mod campaign;
#[cfg(test)]
mod load_crashes;
#[cfg(test)]
mod load_failures;
#[cfg(test)]
mod lying;
#[cfg(test)]
mod replaced;
#[cfg(test)]
mod rules;
#[cfg(test)]
mod streams;
