//! Whoever coordinates a run.
use std::alloc::Global;

/// Whoever coordinates a run: the system that it waits by and starts programs with, where it takes memory, and who attends it.
#[derive(Drop)]
pub struct Coordinator<'c, H, A> {
    pub rt: &'c H,
    pub alloc: Global,
    pub attend: &'c A,
}
