//! How a text is to be laid out.

/// How a text is to be laid out: in lines for people, or as one JSON object.
#[derive(Clone, Copy, Debug, PartialEq, Eq)]
pub enum Form {
    Plain,
    Json,
}
