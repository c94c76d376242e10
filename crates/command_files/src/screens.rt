//! Which streams a person watches.

/// Whether standard output and standard error are terminals.
#[derive(Clone, Copy)]
pub struct Screens {
    pub output: bool,
    pub errors: bool,
}
