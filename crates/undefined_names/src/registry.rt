//! The plays of a file before anything of them has run.
ghost use Rattle.std.specs.Prelude.{◌≡◌, IfOk, slice_get};
ghost use Rattle.host_vars.specs.HostVars.{known_of};
ghost use Rattle.undefined_names.specs.Inside.{AreActsOf, missed_in_act, past_behind, skipped_in_act};
ghost use Rattle.undefined_names.specs.Lent.{lent_names};
ghost use Rattle.undefined_names.specs.UndefinedReads.{is_some_skipped, missed_by_some, outset_of};

use crate::before::Before;
use crate::earlier_steps::EarlierSteps;
use crate::play_facts::PlayFacts;
use crate::step_location::StepLocation;
use crate::steps::{is_skipped, missed_by_step};
use cond::span::split;
use domains::Fleet;
use host_vars::Vars;
use play_model::Play;
use std::alloc::{AllocError, Global};

/// A file's plays for the hosts of a fleet: which hosts wait for each at the start, and under which names its steps register results.
#[derive(Drop)]
pub struct Registry<'p> {
    pub(crate) fleet: &'p Fleet,
    pub(crate) plays: &'p [Play],
    acts: Vec<PlayFacts<'p>>,
    ghost acted: { AreActsOf fleet.now plays.now acts.items },
}

impl<'p> Registry<'p> {
    ghost use Rattle.std.specs.Prelude.{◌≡◌, IfOk};
    ghost use Rattle.host_vars.specs.HostVars.{known_of};
    ghost use Rattle.undefined_names.specs.Lent.{lent_names};
    ghost use Rattle.undefined_names.specs.Spots.{missed_at, skipped_at};

    /// Those of these plays. It fails for want of memory alone, where the patterns were looked up.
    pub fn of(
        alloc: Global,
        fleet: &'p Fleet,
        plays: &'p [Play],
    ) -> Result<Registry<'p>, AllocError>
        ensures fleet { IfOk result (λ registry. registry.fleet.now ≡ fleet.now) }
        ensures plays { IfOk result (λ registry. registry.plays.now ≡ plays.now) }
    {
        let mut acts = Vec::with_capacity(alloc, plays.len())?;
        for play in plays {
            acts.push(PlayFacts::of(alloc, fleet, play)?)?;
        }
        Ok(Registry { fleet, plays, acts })
    }

    /// The names that the step there may look up in vain, each once, in the order of reading: `when`; where it may hold, the words; and what judges the step's end, which sees the
    /// step's own result. `vars` are what is known of the host at the start. None where no step stands there. It fails for want of memory alone.
    pub fn missed_names(
        &self,
        alloc: Global,
        spot: StepLocation,
        vars: &Vars,
    ) -> Result<Vec<&'p str>, AllocError>
        ensures { IfOk result (λ names. lent_names names.items ≡ missed_at self.now.fleet.now self.now.plays.now spot.play spot.place spot.host.index (known_of vars.now)) }
    {
        missed_in_acts(alloc, self.acts.as_slice(), spot, vars)
    }

    /// Whether it is known that the step there doesn't run on the host, since its `when` can't hold. Not where no step stands there. It fails for want of memory alone.
    pub fn skips(&self, alloc: Global, spot: StepLocation, vars: &Vars) -> Result<bool, AllocError>
        ensures { IfOk result (λ skipped. skipped ≡ skipped_at self.now.fleet.now self.now.plays.now spot.play spot.place spot.host.index (known_of vars.now)) }
    {
        skipped_in_acts(alloc, self.acts.as_slice(), spot, vars)
    }
}

/// Those that the step there misses.
fn missed_in_acts<'p>(
    alloc: Global,
    acts: &[PlayFacts<'p>],
    spot: StepLocation,
    vars: &Vars,
) -> Result<Vec<&'p str>, AllocError>
    ensures { IfOk result (λ names. lent_names names.items
        ≡ missed_in_act acts.now spot.play spot.place spot.host.index (known_of vars.now) (slice_get acts.now spot.play)) }
{
    match acts.get(spot.play) {
        Some(act) => missed_in_play(alloc, split(acts, spot.play).0, act, spot, vars),
        None => Ok(Vec::new(alloc)),
    }
}

/// The names that the step at the spot's place of the play misses, which stands behind the earlier ones.
fn missed_in_play<'p>(
    alloc: Global,
    earlier: &[PlayFacts<'p>],
    act: &PlayFacts<'p>,
    spot: StepLocation,
    vars: &Vars,
) -> Result<Vec<&'p str>, AllocError>
    ensures { IfOk result (λ names. lent_names names.items
        ≡ missed_by_some (outset_of (past_behind earlier.now act.now.play.now spot.place spot.host.index) (known_of vars.now)) (slice_get act.now.play.now.steps.items spot.place)) }
{
    let play: &'p Play = act.play;
    match play.steps().get(spot.place) {
        Some(step) => {
            let past = EarlierSteps {
                earlier,
                act,
                place: spot.place,
                host: spot.host,
            };
            missed_by_step(alloc, step, &Before { past, vars })
        }
        None => Ok(Vec::new(alloc)),
    }
}

/// Whether the step there is skipped.
fn skipped_in_acts(
    alloc: Global,
    acts: &[PlayFacts<'_>],
    spot: StepLocation,
    vars: &Vars,
) -> Result<bool, AllocError>
    ensures { IfOk result (λ skipped. skipped ≡ skipped_in_act acts.now spot.play spot.place spot.host.index (known_of vars.now) (slice_get acts.now spot.play)) }
{
    match acts.get(spot.play) {
        Some(act) => skipped_in_play(alloc, split(acts, spot.play).0, act, spot, vars),
        None => Ok(false),
    }
}

fn skipped_in_play(
    alloc: Global,
    earlier: &[PlayFacts<'_>],
    act: &PlayFacts<'_>,
    spot: StepLocation,
    vars: &Vars,
) -> Result<bool, AllocError>
    ensures { IfOk result (λ skipped. skipped
        ≡ is_some_skipped (outset_of (past_behind earlier.now act.now.play.now spot.place spot.host.index) (known_of vars.now)) (slice_get act.now.play.now.steps.items spot.place)) }
{
    match act.play.steps().get(spot.place) {
        Some(step) => {
            let past = EarlierSteps {
                earlier,
                act,
                place: spot.place,
                host: spot.host,
            };
            is_skipped(alloc, step, &Before { past, vars })
        }
        None => Ok(false),
    }
}
