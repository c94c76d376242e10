//! Files of the tests' own.
use std::fs;

/// Removes a file, if there is one.
pub fn remove(rt: &HostRuntime, path: &str) {
    let _ = fs::remove_file(rt, path);
}
