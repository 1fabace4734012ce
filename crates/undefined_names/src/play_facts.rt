//! A play, as far as it matters to the steps behind its own.
ghost use Rattle.std.specs.Prelude.{◌≡◌};
ghost use Rattle.fleet_states.specs.Starts.{start_statuses};
ghost use Rattle.play_forecast.specs.PlayPlans.{targets};
ghost use Rattle.undefined_names.specs.Places.{ArePlacesOf};

use crate::places::Places;
use command_preview::start_play;
use domains::Fleet;
use fleet_states::{Status, status_of};
use group_tree::HostId;
use play_model::Play;
use std::alloc::{AllocError, Global};

/// A play with the hosts that wait for it at the start, and the names under which its steps register results.
#[derive(Drop)]
pub(crate) struct PlayFacts<'p> {
    pub(crate) fleet: &'p Fleet,
    pub(crate) play: &'p Play,
    statuses: Vec<Status>,
    places: Places<'p>,
    ghost waiting: { statuses.items ≡ start_statuses fleet.now (targets fleet.now play.now) },
    ghost placed: { ArePlacesOf places.names play.now.steps.items },
}

impl<'p> PlayFacts<'p> {
    ghost use Rattle.std.specs.Prelude.{◌≡◌, IfOk, take};
    ghost use Rattle.undefined_names.specs.Spots as spec;
    ghost use Rattle.undefined_names.specs.EarlierSteps.{is_registered};

    /// The play for the hosts of the fleet. It fails for want of memory alone, where the play's pattern was looked up.
    pub(crate) fn of(
        alloc: Global,
        fleet: &'p Fleet,
        play: &'p Play,
    ) -> Result<PlayFacts<'p>, AllocError>
        ensures fleet { IfOk result (λ act. act.fleet.now ≡ fleet.now) }
        ensures play { IfOk result (λ act. act.play.now ≡ play.now) }
    {
        Ok(PlayFacts {
            fleet,
            play,
            statuses: start_play(alloc, fleet, play)?,
            places: Places::of(alloc, play.steps())?,
        })
    }

    pub(crate) fn waits_for(&self, host: HostId) -> bool
        ensures { result ≡ spec.waits_for self.now.fleet.now host.index self.now.play.now }
    {
        status_of(self.statuses.as_slice(), host).is_waiting()
    }

    /// Whether one of the first so many steps registers its result under the name.
    pub(crate) fn registers(&self, count: usize, name: &str) -> bool
        ensures { result ≡ is_registered (take count self.now.play.now.steps.items) name.now }
    {
        self.places.has(count, name)
    }
}
