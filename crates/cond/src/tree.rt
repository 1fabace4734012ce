//! The tree of a text that was read.
use crate::leaf::Test;

/// What a text says. How deep it is is bounded by how deep the text nests brackets and `not`, since a chain of `or` or `and` is
/// one level. Words stand in it as places in the text.
#[derive(Debug, Drop)]
pub enum Tree {
    Either(Vec<Tree>),
    Both(Vec<Tree>),
    Negated(Box<Tree>),
    Leaf(Test),
    /// The contrary of a test: `not` before one takes no memory.
    Denied(Test),
}
