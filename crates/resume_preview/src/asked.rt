//! What is asked for.
use resume_state::Wish;

/// The texts with which a run began, and whose run is to go on with them.
#[derive(Clone, Copy)]
pub struct Asked<'a> {
    pub inventory: &'a [u8],
    pub playbook: &'a [u8],
    pub wish: Wish<'a>,
}
