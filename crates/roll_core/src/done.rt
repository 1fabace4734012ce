//! A step that is over on a host.
ghost use Rattle.std.specs.Prelude.{◌≡◌, IfErr, IfOk, true};
ghost use Rattle.host_track.specs.Endings.{ending_of};
ghost use Rattle.event_log.specs.Rolls.{is_of_program};
ghost use Rattle.roll_core.specs.Dones.{MayComplete, done_of};

use crate::claim::Claim;
use crate::completion::Completion;
use crate::runner::Runner;
use group_tree::HostId;
use host_track::Outcome;
use std::alloc::{AllocError, Global};
use std::marker::Model;

/// How a step ended on the host of a claim, to be reported, and the runner that says so, which may say it. It can't be copied: no step is
/// reported twice. Whoever drops it leaves its host down and its batch open.
#[derive(Drop)]
pub struct Done<'r, R: Runner> {
    pub(crate) completion: Completion,
    pub(crate) runner: &'r R,
}

impl<'r, R: Runner> Model for Done<'r, R> {
    ghost use Rattle.std.specs.Coded.{codes};
    ghost use Rattle.roll_core.specs.contracts.completion.Completion as completions;
    ghost use Rattle.roll_core.specs.Dones.{DoneView, MayComplete};

    ghost Value = { DoneView R };

    ghost coded = { Prim.hlevel (codes, completions.the_row.coded, R.code) };

    ghost view = { λ d. record { completion = d.completion; runner = d.runner.now } };

    ghost invariant = { λ d. MayComplete (R.may d.runner.now) d.completion };
}

impl<'r, R: Runner> Done<'r, R> {
    /// The program of the claim ended so, as this runner may tell. Want of memory hands the claim back, and drops the outcome.
    pub fn new(
        alloc: Global,
        runner: &'r R,
        claim: Claim,
        outcome: Outcome,
    ) -> Result<Done<'r, R>, (Claim, AllocError)>
        requires program { is_of_program (ending_of outcome) ≡ true }
        requires allowed { R.may runner.now claim (ending_of outcome) }
        ensures ok { IfOk result (λ done. done ≡ done_of runner.now claim (ending_of outcome)) }
        ensures err { IfErr result (λ refused. refused.0 ≡ claim) }
    {
        let completion = Completion::new(alloc, claim, outcome)?;
        Ok(Done { completion, runner })
    }

    /// What ended may have ended so, by this runner.
    pub(crate) fn of(completion: Completion, runner: &'r R) -> Done<'r, R>
        requires { MayComplete (R.may runner.now) completion }
        ensures { result ≡ record { completion = completion; runner = runner.now } }
    {
        Done { completion, runner }
    }

    /// The host of the claim. In every `Done` the program of the claim ended as its runner may tell.
    pub fn host(&self) -> HostId
        ensures host { result.index ≡ self.now.completion.host }
        ensures told { MayComplete (R.may self.now.runner) self.now.completion }
    {
        self.completion.host()
    }
}
