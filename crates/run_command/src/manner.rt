//! How plays are to be run and told.
use json_output::Form;
use run_diagnosis::Call;

/// With how many workers plays are to be run, in which form their recaps are to be written, and the command that goes on with the run, if it has a journal.
#[derive(Clone, Copy)]
pub struct Manner<'m> {
    pub forks: usize,
    pub form: Form,
    pub call: Option<&'m Call>,
}
