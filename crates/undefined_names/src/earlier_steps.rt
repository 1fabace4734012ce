//! The steps that run on a host before a step of a play.
ghost use Rattle.std.specs.Prelude.{◌≡◌};
ghost use Rattle.std.specs.List.{list_any};
ghost use Rattle.undefined_names.specs.Inside.{has_run_task, may_have_run, past_seen};
ghost use Rattle.undefined_names.specs.EarlierSteps.{is_registered};

use crate::play_facts::PlayFacts;
use group_tree::HostId;

/// The plays before a play, that play, and a place of it.
#[derive(Clone, Copy)]
pub(crate) struct EarlierSteps<'a> {
    pub(crate) earlier: &'a [PlayFacts<'a>],
    pub(crate) act: &'a PlayFacts<'a>,
    pub(crate) place: usize,
    pub(crate) host: HostId,
}

impl EarlierSteps<'_> {
    /// Whether a step that is sure to have run registers its result under the name.
    #[tactic(auto, using(crate::proofs::Pasts::sure_names))]
    pub(crate) fn is_sure(&self, name: &str) -> bool
        ensures { result ≡ is_registered (past_seen self.now).sure name.now }
    {
        has_sure(self.earlier, self.host, name)
            || self
                .act
                .registers(self.place.min(self.act.play.tasks()), name)
    }

    /// Whether a step that may have run does.
    #[tactic(auto, using(crate::proofs::Pasts::perhaps_names))]
    pub(crate) fn may_be(&self, name: &str) -> bool
        ensures { result ≡ is_registered (past_seen self.now).may name.now }
    {
        has_perhaps(self.earlier, self.host, name) || self.act.registers(self.place, name)
    }
}

fn has_sure(acts: &[PlayFacts<'_>], host: HostId, name: &str) -> bool
    ensures { result ≡ list_any (has_run_task host.index name.now) acts.now }
{
    acts.iter().any(|act| act.waits_for(host) && act.registers(act.play.tasks(), name))
}

fn has_perhaps(acts: &[PlayFacts<'_>], host: HostId, name: &str) -> bool
    ensures { result ≡ list_any (may_have_run host.index name.now) acts.now }
{
    acts.iter().any(|act| act.waits_for(host) && act.registers(act.play.steps().len(), name))
}
