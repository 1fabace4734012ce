//! What is expected of a number that has a name.

/// How a number is to stand to the one that is expected.
#[derive(Clone, Copy, Debug, PartialEq, Eq)]
pub enum Relation {
    Equal,
    AtMost,
}

/// The number that a name stands for is to be `number`, or at most that. The name is lent by the text that says so.
#[derive(Clone, Copy, Debug)]
pub struct Expectation<'t> {
    pub name: &'t str,
    pub relation: Relation,
    pub number: u16,
}

/// An expectation that isn't met, and the number that its name stands for, if it stands for one.
#[derive(Clone, Copy, Debug)]
pub struct Unmet<'t> {
    pub expectation: Expectation<'t>,
    pub found: Option<usize>,
}
