//! Why nothing is told of the rest of a run, or not all.
use bounded_io::WriteFault;
use domains::PatternFault;
use rehearse::RehearseFault;
use resume_state::ResumeFault;

/// Why no table, plan or course of the rest of a run is printed.
#[derive(Debug, Drop)]
pub enum OutlookFault {
    /// The run is not resumed.
    Resume(ResumeFault),
    /// A part of the names of the hosts that fail names nothing, or memory was wanting for their courses.
    Failing(PatternFault),
    /// The output broke off.
    Write(WriteFault),
}

/// Why a session on the rest of a run ends before its commands do.
#[derive(Debug, Drop)]
pub enum PreviewFault {
    /// The run is not resumed. No command was read.
    Resume(ResumeFault),
    /// The session ended so; it is never a refusal of the texts.
    Session(RehearseFault),
}
