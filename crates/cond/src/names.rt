//! Names that are looked for.
ghost use Rattle.std.specs.Prelude.{◌≡◌, Bool};
ghost use Rattle.group_tree.specs.Names.{Name, same_name};

/// Names, of which one is looked for in a condition.
pub trait Names {
    ghost holds: { Self → Name → Bool };

    /// Whether the name is one of them.
    fn has(&self, name: &str) -> bool
        ensures { result ≡ holds self.now name.now };
}

/// One name.
#[derive(Clone, Copy, Debug)]
pub(crate) struct Single<'n> {
    pub(crate) name: &'n str,
}

impl Names for Single<'_> {
    ghost holds = { λ single. same_name single.name.now };

    fn has(&self, name: &str) -> bool {
        self.name == name
    }
}
