//! Names that were found.
ghost use Rattle.std.specs.Prelude.{◌≡◌, [], IfOk, OnOk};
ghost use Rattle.undefined_names.specs.Lent.{lent_names, names_found};
ghost use Rattle.undefined_names.specs.UndefinedReads.{once_behind, with_name};

use indexmap::IndexSet;
use std::alloc::{AllocError, Global};

/// Names, each once, in the order in which they were found first.
#[derive(Drop)]
pub(crate) struct Found<'s> {
    names: IndexSet<&'s str>,
}

impl<'s> Found<'s> {
    pub(crate) fn new(alloc: Global) -> Found<'s>
        ensures { names_found result ≡ [] }
    {
        Found {
            names: IndexSet::new(alloc),
        }
    }

    /// Adds the name behind the others, where it doesn't stand there.
    pub(crate) fn add(&mut self, name: &'s str) -> Result<(), AllocError>
        ensures { OnOk result (names_found self.new ≡ with_name (names_found self.old) name.now) }
    {
        self.names.insert(name)?;
        Ok(())
    }

    /// Adds each of these.
    pub(crate) fn add_all(&mut self, names: &[&'s str]) -> Result<(), AllocError>
        ensures { OnOk result (names_found self.new ≡ once_behind (names_found self.old) (lent_names names.now)) }
    {
        for name in names {
            self.add(name)?;
        }
        Ok(())
    }

    pub(crate) fn list(&self, alloc: Global) -> Result<Vec<&'s str>, AllocError>
        ensures { IfOk result (λ names. lent_names names.items ≡ names_found self.now) }
    {
        self.names.as_slice().iter().copied().collect(alloc)
    }
}
