//! Tests of dimensions and of batches as they are stored, and of what is read of a batch.
#![tactic(auto)]

#[cfg(test)]
mod segments;
#[cfg(test)]
mod stored;
