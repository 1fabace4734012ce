//! What others see of a kernel.
ghost use Rattle.std.specs.Prelude.{◌≡◌, ◌<◌, ◌≤◌, [], count_by, length};
ghost use Rattle.fleet_states.specs.Statuses.{NobodyRuns, down_count, status_at};
ghost use Rattle.fleet_states.specs.Groups.{IsSafe, group_at, groups_of};
ghost use Rattle.domains.specs.Ids.{host_numbers};
ghost use Rattle.host_track.specs.Tracks.{counts_in};
ghost use Rattle.event_log.specs.States.{between, failures, start_state};
ghost use Rattle.event_log.specs.Logs.{IsLegal};
ghost use Rattle.event_log.specs.Works.{is_awaited_in, phase_of};
ghost use Rattle.roll_core.specs.Views.{FrontsAreSafe, RestsAtBoundaries, events_of, roll_of, state_of};
ghost use Rattle.roll_core.specs.KernelInside.{owed_by};

use crate::event::Event;
use crate::kernel::Kernel;
use domains::Fleet;
use event_log::Stage;
use fleet_states::Status;
use group_tree::{GroupId, HostId};
use host_track::Counts;
use host_vars::Vars;
use play_model::Play;

impl<'f> Kernel<'f> {
    /// All events, the oldest first.
    pub fn log(&self) -> &[Event]
        ensures value { events_of result.now ≡ self.now.log }
        ensures all { length self.now.start ≡ length self.now.fleet.hosts }
        ensures legal { IsLegal (roll_of self.now) (start_state (roll_of self.now)) self.now.log }
        ensures safe { FrontsAreSafe (roll_of self.now) self.now.log }
        ensures rests { RestsAtBoundaries (roll_of self.now) self.now.log }
    {
        self.log.as_slice()
    }

    pub fn fleet(&self) -> &'f Fleet
        ensures { result.now ≡ self.now.fleet }
    {
        self.roster.fleet()
    }

    pub fn play(&self) -> &'f Play
        ensures { result.now ≡ self.now.play }
    {
        self.play
    }

    /// How many claims may be out at once.
    pub fn forks(&self) -> usize
        ensures value { result ≡ self.now.forks }
        ensures some { 0 < result }
        ensures few { result ≤ 64 }
    {
        self.forks
    }

    /// The status of each host at the start, and its variables then.
    pub fn opening(&self) -> (&'f [Status], &'f [Vars])
        ensures start { result.0.now ≡ self.now.start }
        ensures vars { result.1.now ≡ self.now.vars }
    {
        (self.start, self.vars)
    }

    /// The status of a host now; a number that no host has is idle.
    pub fn status(&self, host: HostId) -> Status
        ensures { result ≡ status_at (state_of self.now).statuses host.index }
    {
        self.roster.status(host)
    }

    /// The status of each host now. No group is over its limit, and nobody runs where no batch is open.
    pub fn statuses(&self) -> &[Status]
        ensures value { result.now ≡ (state_of self.now).statuses }
        ensures all { length result.now ≡ length self.now.fleet.hosts }
        ensures safe { IsSafe (groups_of self.now.fleet) result.now }
        ensures rests { (state_of self.now).phase ≡ between → NobodyRuns result.now }
    {
        self.roster.statuses()
    }

    /// The hosts of the open batch, in its order; none where no batch is open.
    pub fn batch(&self) -> &[HostId]
        ensures { host_numbers result.now ≡ (state_of self.now).batch }
    {
        self.work.batch()
    }

    /// How many hosts of the open batch have failed until now. Time linear in the batch.
    pub fn failures(&self) -> usize
        ensures { result ≡ failures (state_of self.now) }
    {
        self.work.failures()
    }

    /// How many of the group's members are down now: the number that its limit bounds. Near-constant time for a group that has a
    /// limit; the members of another are counted.
    pub fn down(&self, group: GroupId) -> u32
        ensures { result ≡ down_count (state_of self.now).statuses (group_at (groups_of self.now.fleet) group.index).members }
    {
        self.roster.down(group)
    }

    /// How far the roll is: no batch is open, or the open one is at a step, or at its end.
    pub fn stage(&self) -> Stage
        ensures { phase_of result ≡ (state_of self.now).phase }
    {
        self.work.stage()
    }

    /// How the rows of a host are judged until now; a number that no host has has none.
    pub fn counts(&self, host: HostId) -> Counts
        ensures value { host.index < length self.now.start → result ≡ counts_in ((state_of self.now).rows host.index) }
        ensures none { length self.now.start ≤ host.index → result ≡ counts_in [] }
    {
        match self.work.summary(host) {
            Some(summary) => summary.counts(),
            None => Counts::none(),
        }
    }

    /// How many hosts of the batch have not reported the present step, which is due on them. Time linear in the batch.
    pub fn due(&self) -> usize
        ensures { result ≡ count_by (is_awaited_in (roll_of self.now) (state_of self.now)) (state_of self.now).batch }
    {
        self.work.awaited()
    }

    /// How many claims are out.
    pub fn out(&self) -> usize
        ensures { result ≡ length (state_of self.now).out }
    {
        self.work.out()
    }

    /// How many events are still to come in the open batch but for claims and their reports: its barriers and its closing; and the
    /// reports of the claims that are out.
    pub(crate) fn owed(&self) -> usize
        ensures { result ≡ owed_by (roll_of self.now) (state_of self.now) }
    {
        let left = match self.work.stage() {
            Stage::Between => 0,
            Stage::Working(step) => self.play.steps().len() - step + 1,
            Stage::Ended(_) => 1,
        };
        left + self.work.out()
    }
}
