//! What lines are written as.

/// Words for whoever reads them, or an object of JSON a line.
#[derive(Clone, Copy, Debug, PartialEq, Eq)]
pub(crate) enum Form {
    Plain,
    Json,
}
