//! How telling the words ends.

#[derive(Clone, Copy, Debug, PartialEq, Eq)]
pub enum WordsEnd {
    /// No step is told to fail, and no word to be too long.
    Sure,
    /// A step is sure to fail where it is reached, or a word is too long.
    Fails,
}
