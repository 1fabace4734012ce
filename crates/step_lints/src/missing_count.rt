//! What the waiting hosts have under a name.

/// How many of the waiting hosts lack a name, and the first of these by its number.
#[derive(Clone, Copy, Debug)]
pub(crate) struct MissingCount {
    pub(crate) hosts: usize,
    pub(crate) first: usize,
}

/// The hosts that lack a name, if any does, and whether not all hosts have the same value of it.
#[derive(Clone, Copy, Debug)]
pub(crate) struct Facts {
    pub(crate) lack: Option<MissingCount>,
    pub(crate) varies: bool,
}
