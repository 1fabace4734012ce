//! A name that a step may look up in vain.

/// The step has this number in its play, counted from 1, tasks first and then handlers; the play's number, from 1 too, stands there where the file has several plays.
#[derive(Debug, Drop)]
pub struct NoValue {
    pub play: Option<usize>,
    pub step: usize,
    pub host: String,
    pub name: String,
}
