//! A host before a step, and behind the program of the step.
ghost use Rattle.std.specs.Prelude.{◌≡◌, option_map};
ghost use Rattle.cond.specs.Trees.{had};
ghost use Rattle.undefined_names.specs.Lent.{stood};
ghost use Rattle.undefined_names.specs.UndefinedReads.{standing_by};

use crate::earlier_steps::EarlierSteps;
use crate::name_status::{NameStatus, StaticEnv};
use crate::places::registers;
use cond::{Env, Value};
use host_vars::Vars;
use play_model::Step;

/// A host with its variables and the results that it has already, behind what may have run on it before a step.
#[derive(Clone, Copy)]
pub(crate) struct Before<'a> {
    pub(crate) past: EarlierSteps<'a>,
    pub(crate) vars: &'a Vars,
}

impl StaticEnv for Before<'_> {
    ghost use Rattle.host_vars.specs.HostVars.{known_of};
    ghost use Rattle.undefined_names.specs.Inside.{past_seen};
    ghost use Rattle.undefined_names.specs.UndefinedReads.{outset_of};

    ghost outset = { λ before. outset_of (past_seen before.past) (known_of before.vars.now) };

    fn standing(&self, name: &str) -> NameStatus<'_> {
        let now = Env::value(self.vars, name);
        stands(self.past.is_sure(name), self.past.may_be(name), now)
    }

    fn in_group(&self, group: &str) -> bool {
        self.vars.in_group(group)
    }

    fn host(&self) -> &str {
        self.vars.host()
    }
}

fn stands(is_sure: bool, may_be: bool, now: Option<Value<'_>>) -> NameStatus<'_>
    ensures { stood result ≡ standing_by is_sure may_be (option_map had now.entry) }
{
    if is_sure {
        return NameStatus::Registered;
    }
    match now {
        Some(Value::Registered) => NameStatus::Registered,
        Some(Value::Plain(_)) if may_be => NameStatus::Perhaps { is_variable: true },
        Some(Value::Plain(scalar)) => NameStatus::Variable(scalar),
        None if may_be => NameStatus::Perhaps { is_variable: false },
        None => NameStatus::Nothing,
    }
}

/// The host behind the step's own program.
#[derive(Clone, Copy)]
pub(crate) struct Behind<'a> {
    pub(crate) before: &'a Before<'a>,
    pub(crate) step: &'a Step,
}

impl StaticEnv for Behind<'_> {
    ghost use Rattle.host_vars.specs.HostVars.{known_of};
    ghost use Rattle.undefined_names.specs.Inside.{past_seen};
    ghost use Rattle.undefined_names.specs.UndefinedReads as spec;
    ghost use Rattle.undefined_names.specs.UndefinedReads.{outset_of};

    ghost outset = { λ behind. spec.behind behind.step.now (outset_of (past_seen behind.before.now.past) (known_of behind.before.now.vars.now)) };

    fn standing(&self, name: &str) -> NameStatus<'_> {
        if registers(name, self.step) {
            NameStatus::Registered
        } else {
            self.before.standing(name)
        }
    }

    fn in_group(&self, group: &str) -> bool {
        self.before.in_group(group)
    }

    fn host(&self) -> &str {
        self.before.host()
    }
}
