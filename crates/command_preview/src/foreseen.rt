//! A host as conditions and words see it before anything has run.
use crate::holes::Holes;
use cond::Names;
use group_tree::Scalar;
use host_vars::Vars;
use text_syntax::{Ref, Values};

/// A host with its variables, before a step behind so many steps of a file. The hole of a name that one of those steps registers stands for itself.
#[derive(Clone, Copy)]
pub(crate) struct Foreseen<'f> {
    pub(crate) vars: &'f Vars,
    pub(crate) holes: &'f Holes<'f>,
    pub(crate) before: usize,
}

impl Values for Foreseen<'_> {
    ghost use Rattle.host_vars.specs.Conditions.{values_of};
    ghost use Rattle.command_preview.specs.Previews as spec;
    ghost use Rattle.command_preview.specs.Holes.{is_kept_before};

    ghost values = { λ foreseen. spec.foreseen (is_kept_before foreseen.holes.now.names foreseen.before) (values_of foreseen.vars.now) };

    fn value(&self, of: Ref<'_>) -> Option<Scalar<'_>> {
        match self.holes.text(self.before, of) {
            Some(text) => Some(Scalar::Text(text)),
            None => Values::value(self.vars, of),
        }
    }
}

/// The names of those holes.
impl Names for Foreseen<'_> {
    ghost use Rattle.command_preview.specs.Holes.{is_kept_before};

    ghost holds = { λ foreseen. is_kept_before foreseen.holes.now.names foreseen.before };

    fn has(&self, name: &str) -> bool {
        self.holes.has(self.before, name)
    }
}
