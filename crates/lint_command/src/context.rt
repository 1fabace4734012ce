//! What all plays of a file are looked at with.
use domains::Fleet;
use host_vars::Vars;
use step_lints::NameSet;
use undefined_names::Registry;

/// A fleet with the variables of its hosts and the names that any of them has, and a file's plays before any of them has run.
#[derive(Clone, Copy)]
pub(crate) struct Context<'a, 's> {
    pub(crate) fleet: &'a Fleet,
    pub(crate) vars: &'s [Vars],
    pub(crate) given: &'s NameSet<'a>,
    pub(crate) registry: &'s Registry<'a>,
}
