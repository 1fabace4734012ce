//! What a variable may be.

/// A text, a whole number or a truth value, lent.
#[derive(Clone, Copy, Debug, PartialEq, Eq)]
pub enum Scalar<'a> {
    Text(&'a str),
    Int(i64),
    Bool(bool),
}
