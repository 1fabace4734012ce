//! How far a session had come.

/// How far a session had come before a command that led on: by how many batches its rehearsal had advanced, and how many hosts were marked.
#[derive(Clone, Copy)]
pub(crate) struct Point {
    pub(crate) stages: usize,
    pub(crate) marks: usize,
}
