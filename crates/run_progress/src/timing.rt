//! What is told beside what happens.
use local_runner::ExitDetail;

/// Times, the remark of a program, and how many programs may be under way at once with so many descriptors, where that is due. No log has them,
/// so nothing is claimed of them.
#[derive(Debug, Drop)]
pub(crate) struct Timing {
    pub(crate) bounds: Option<(u64, usize)>,
    /// A program was tried.
    pub(crate) was_tried: bool,
    /// How many milliseconds it took, where that is known.
    pub(crate) milliseconds: Option<u64>,
    pub(crate) remark: ExitDetail,
    /// Milliseconds since the run began.
    pub(crate) since_run: u64,
    /// Milliseconds since the batch was opened.
    pub(crate) since_batch: u64,
}
