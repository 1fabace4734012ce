//! A condition that was read.
ghost use Rattle.std.specs.Prelude.{◌≡◌};
ghost use Rattle.cond.specs.Trees.{bytes_of, trees_of};

use crate::leaf::Test;
use crate::tree::Tree;

/// What one text says, and how many bytes it has. It owns nothing, so that dropping a long list of parts takes no time.
#[derive(Clone, Copy, Debug)]
pub enum Part {
    /// A test, or its contrary.
    Test {
        denied: bool,
        bytes: u16,
        test: Test,
    },
    /// So many of the condition's trees, which all have to hold.
    Trees {
        bytes: u16,
        count: usize,
    },
}

impl Part {
    /// How many bytes of the text are its own.
    pub fn bytes(self) -> u16
        ensures { result ≡ bytes_of self }
    {
        match self {
            Part::Test { bytes, .. } => bytes,
            Part::Trees { bytes, .. } => bytes,
        }
    }

    /// How many of the trees are its own.
    pub fn trees(self) -> usize
        ensures { result ≡ trees_of self }
    {
        match self {
            Part::Test { .. } => 0,
            Part::Trees { count, .. } => count,
        }
    }
}

/// A condition: parts that all have to hold. Their texts stand one behind the other in one text, and so do their trees, so
/// that no part of a list of many tests takes memory of its own.
#[derive(Debug, Drop)]
pub struct Cond {
    pub text: String,
    pub parts: Vec<Part>,
    pub trees: Vec<Tree>,
}
